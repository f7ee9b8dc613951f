//! Laws of what is seen before an item.
ghost use Rattle.std.specs.Prelude.{◌≡◌, ◌+◌, ◌≤◌, ℕ, List, None};
ghost use Rattle.pr_scope_names.specs.declared.names.Static.{Static};
ghost use Rattle.pr_scope_names.specs.Names.{Entries, SeesAll, before, bind_by};

/// A new name of an item changes nothing of what is seen before that item, or before one that stands earlier.
pub fn later_names_law()
    ensures { (name : List ℕ) (item horizon : ℕ) (what : Static) (entries : Entries) →
        horizon ≤ item → entries name ≡ None →
        before horizon (bind_by item name what entries) ≡ before horizon entries }
{}

/// Where all that was introduced is seen before an item, it is seen before the next one, and so is what the item
/// introduces.
pub fn next_item_law()
    ensures keeps { (horizon : ℕ) (entries : Entries) → SeesAll horizon entries → SeesAll (horizon + 1) entries }
    ensures adds { (name : List ℕ) (horizon : ℕ) (what : Static) (entries : Entries) →
        SeesAll horizon entries → SeesAll (horizon + 1) (bind_by horizon name what entries) }
{}

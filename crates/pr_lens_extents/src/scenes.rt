//! What is known of the names that are visible.

ghost use Rattle.std.specs.Prelude.{◌≡◌, IfOk, OnOk};
ghost use Rattle.pr_lens_extents.specs.Scenes.{both_applied, fixed_value, known_at, known_of_target, nothing_seen, number_at, place_by, seen_in, with_constant, with_sign, with_stream, with_target};

use pr_lang::{Fixed, FixedOp, Name, Ref};
use pr_lens_reach::{Extent, constant, number_of};
use pr_scope_names::{Instances, apply};
use std::alloc::{AllocError, Global};

/// The constants and entries of tables, and the streams and indices of loops, with what is known of them.
#[derive(Drop)]
pub struct Scene {
    pub constants: Instances<u64>,
    pub streams: Instances<Option<Extent>>,
    /// Functions, with the places of arguments that they read by `signed`.
    pub signs: Instances<bool>,
}

/// Where no name is known.
pub fn empty(alloc: Global) -> Scene
    ensures { seen_in result ≡ nothing_seen }
{
    Scene {
        constants: Instances::new(alloc),
        streams: Instances::new(alloc),
        signs: Instances::new(alloc),
    }
}

/// What is known of a name, with an index or without one.
fn known_at(scene: &Scene, name: &Name, place: Option<u64>) -> Option<Extent>
    ensures { result ≡ known_at name.now place (seen_in scene.now) }
{
    match scene.constants.get(name, place) {
        Some(number) => Some(constant(*number)),
        None => match scene.streams.get(name, place) {
            Some(extent) => *extent,
            None => None,
        },
    }
}

fn number_at(scene: &Scene, name: &Name, place: Option<u64>) -> Option<u64>
    ensures { result ≡ number_at name.now place (seen_in scene.now) }
{
    number_of(known_at(scene, name, place))
}

fn both_applied(op: FixedOp, one: Option<u64>, other: Option<u64>) -> Option<u64>
    ensures { result ≡ both_applied op one other }
{
    let Some(one) = one else {
        return None;
    };
    let Some(other) = other else {
        return None;
    };
    apply(op, one, other).ok()
}

/// The value of a constant expression, where it has one.
pub fn fixed_value(scene: &Scene, value: &Fixed) -> Option<u64>
    ensures { result ≡ fixed_value value.now (seen_in scene.now) }
{
    match value {
        Fixed::Number(number) => Some(*number),
        Fixed::Refer(name, index) => match index {
            None => number_at(scene, name, None),
            Some(index) => match fixed_value(scene, index) {
                None => None,
                Some(place) => number_at(scene, name, Some(place)),
            },
        },
        Fixed::Binary(op, left, right) => {
            let one = fixed_value(scene, left);
            let other = fixed_value(scene, right);
            both_applied(*op, one, other)
        }
        Fixed::Paren(inner) => fixed_value(scene, inner),
    }
}

/// The index behind a name; none where it has no value.
fn place_of(scene: &Scene, target: &Ref) -> Option<Option<u64>>
    ensures { result ≡ place_by target.now.index (seen_in scene.now) }
{
    match &target.index {
        None => Some(None),
        Some(index) => match fixed_value(scene, index) {
            None => None,
            Some(place) => Some(Some(place)),
        },
    }
}

/// What is known of a stream, or of a constant in its place.
pub fn known_of(scene: &Scene, target: &Ref) -> Option<Extent>
    ensures { result ≡ known_of_target target.now (seen_in scene.now) }
{
    match place_of(scene, target) {
        None => None,
        Some(place) => known_at(scene, &target.name, place),
    }
}

/// This is known of a stream from now on.
pub fn set_stream(
    alloc: Global,
    scene: &mut Scene,
    name: &Name,
    place: Option<u64>,
    extent: Option<Extent>,
) -> Result<(), AllocError>
    ensures { OnOk result (seen_in scene.new ≡ with_stream name.now place extent (seen_in scene.old)) }
{
    scene.streams.set(alloc, name, place, extent)
}

/// A constant has this value from now on.
pub fn set_constant(
    alloc: Global,
    scene: &mut Scene,
    name: &Name,
    place: Option<u64>,
    number: u64,
) -> Result<(), AllocError>
    ensures { OnOk result (seen_in scene.new ≡ with_constant name.now place number (seen_in scene.old)) }
{
    scene.constants.set(alloc, name, place, number)
}

/// A function reads the argument at this place by `signed`.
pub fn set_sign(
    alloc: Global,
    scene: &mut Scene,
    function: &Name,
    place: u64,
) -> Result<(), AllocError>
    ensures { OnOk result (seen_in scene.new ≡ with_sign function.now place (seen_in scene.old)) }
{
    scene.signs.set(alloc, function, Some(place), true)
}

/// This is known of a target from now on.
pub fn set_target(
    alloc: Global,
    scene: &mut Scene,
    target: &Ref,
    extent: Option<Extent>,
) -> Result<(), AllocError>
    ensures { OnOk result (seen_in scene.new ≡ with_target target.now extent (seen_in scene.old)) }
{
    match place_of(scene, target) {
        None => Ok(()),
        Some(place) => set_stream(alloc, scene, &target.name, place, extent),
    }
}

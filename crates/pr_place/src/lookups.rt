//! Tables over a net.

ghost use Rattle.std.specs.Prelude.{◌≤◌, IfOk};
ghost use Rattle.pr_net.specs.Nets.{IsNet};
ghost use Rattle.pr_net.specs.Whole.{shape_of};
ghost use Rattle.pr_place.specs.Tables.{AreTables};

use crate::celltables::{CellTables, cells_and_plans};
use crate::grouping::classes;
use crate::lists::Lists;
use crate::plans::Plans;
use crate::readers::readers;
use pr_net::Net;
use std::alloc::{AllocError, Global};

/// What stays as it is while a net is placed.
#[derive(Drop)]
pub struct Tables {
    /// What is known of the cells.
    pub cells: CellTables,
    /// The cells of each group and what it reads.
    pub plans: Plans,
    /// The class of each group.
    pub class: Vec<u8>,
    /// The groups that read each group, each as often as it reads a cell of it.
    pub readers: Lists,
}

impl Tables {
    /// The tables of a net.
    pub fn of<const N: usize, const P: usize>(
        alloc: Global,
        net: &Net,
    ) -> Result<Tables, AllocError>
        requires net { IsNet N (shape_of net.now) }
        requires columns { N ≤ 64 }
        requires registers { 1 ≤ P }
        requires few_registers { P ≤ 16 }
        ensures { IfOk result (λ made. AreTables N P (shape_of net.now) made) }
    {
        let (cells, plans) = cells_and_plans::<N>(alloc, net)?;
        let class = classes(alloc, &plans)?;
        let readers = readers(alloc, &cells.owner, &plans.reads)?;
        Ok(Tables {
            cells,
            plans,
            class,
            readers,
        })
    }
}

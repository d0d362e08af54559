//! The locks of a shared map.
ghost use Rattle.std.specs.Prelude.{◌≤◌};
ghost use Rattle.flurry_base.specs.declared.sizes.TheConstants.{MAX_TABLE};

use crate::published_tables::PublishedTables;
use crate::shared_control::SharedControl;
use crate::tables::{LockRoom, Tables};
use flurry_steps_control::Control;
use std::alloc::{AllocError, Allocator, Global};

/// The control and the tables of a map that threads share, each part under a lock of its own, and the exponents that the control has
/// published, which are read without a lock. Beside the control there are tallies, each under its own lock, where counts of pairs wait
/// until the control collects them.
///
/// Each lock keeps what the type of its part keeps: the exponents of a control, the seats of a growth, and the order, the region and the
/// sizes of a slot's bin. A [`LockField`](crate::LockField) takes the locks.
///
/// ```
/// let locks: Locks<u64, u64, Global> = Locks::new(rt.alloc());
///
/// put_in_threads(&rt, &locks, 500);
///
/// assert_eq!(rt; LockField::new(&rt, &locks).len(), 2000);
/// ```
#[derive(Drop)]
pub struct Locks<K: Ord, V, A: Allocator = Global> {
    pub(crate) tables: Tables<K, V, A>,
    pub(crate) published_tables: PublishedTables,
    pub(crate) control: SharedControl,
    pub(crate) alloc: A,
}

// What is under a lock is known by its type alone, since any thread that shares the locks may change it. So no contract specifies it.
impl<K: Ord, V, A: Allocator> Locks<K, V, A> {
    /// Creates the locks of a map without a table. Constant time; takes no memory.
    pub fn new(alloc: A) -> Self {
        Locks {
            tables: Tables::new(),
            published_tables: PublishedTables::new(),
            control: SharedControl::new(Control::new()),
            alloc,
        }
    }
}

impl<K: Ord + Drop, V: Drop, A: Allocator + Copy> Locks<K, V, A> {
    /// Creates the locks of a map whose first table has the exponent `table`, with empty bins. Linear in the number of bins.
    ///
    /// # Errors
    ///
    /// Returns [`AllocError`] if memory for the table cannot be allocated.
    pub fn with_table(alloc: A, table: u8) -> Result<Self, AllocError>
        requires { table ≤ MAX_TABLE }
    {
        let tables = Tables::new();
        let published_tables = PublishedTables::new();
        let mut control = Control::new();
        control.open(table, &mut LockRoom::new(&tables, alloc))?;
        if let Some(start) = control.start() {
            published_tables.add(start);
        }
        Ok(Locks {
            tables,
            published_tables,
            control: SharedControl::new(control),
            alloc,
        })
    }
}

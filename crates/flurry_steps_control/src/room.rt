//! The place where tables are made.
ghost use Rattle.std.specs.Prelude.{ℕ, ◌≤◌, Bool, Option, is_ok};
ghost use Rattle.flurry_base.specs.declared.sizes.TheConstants.{MAX_TABLE};

use std::alloc::AllocError;

/// The place where tables are made. A table is identified by its exponent: table `e` has `2^e` bins.
///
/// A control asks its room to make tables, and never reads one. So an implementation may keep tables in any form, and states in
/// `place_gives` what they are.
///
/// ```
/// impl Room for Counted {
///     ghost place_gives = { λ before table for_growth done after. done ≡ true };
///
///     fn place(&mut self, _table: u8, _for_growth: Option<usize>) -> Result<(), AllocError> {
///         self.0 = self.0.saturating_add(1);
///         Ok(())
///     }
/// }
/// ```
pub trait Room {
    /// What `place` does, as a relation of the room before the call, the exponent of the table, the number of processors that share the
    /// work of the growth for which the table is made, if it is made for one, whether the call succeeded, and the room after the call. An
    /// implementation states here which tables it has after the call, and what a failed call leaves.
    ghost place_gives: { Self → ℕ → Option ℕ → Bool → Self → Type 0 };

    /// Makes the table of exponent `table`. If that table is there already, it stays as it is.
    ///
    /// If `for_growth` is `None`, the bins of the table are live and empty. Otherwise it is the table into which a growth moves the one
    /// before it: its bins are unborn, and come to be as the bins of the table before it move. The board of that growth is made with it,
    /// and the seats at the board, for as many processors as `for_growth` says.
    ///
    /// # Errors
    ///
    /// Returns [`AllocError`] if memory for the table, its board or a seat cannot be allocated. Nothing of them is left then.
    fn place(&mut self, table: u8, for_growth: Option<usize>) -> Result<(), AllocError>
        requires { table ≤ MAX_TABLE }
        ensures { place_gives self.old table for_growth (is_ok result) self.new };
}

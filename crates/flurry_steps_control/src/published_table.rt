//! The table at which a call starts.
ghost use Rattle.std.specs.Prelude.{◌≡◌, ◌≤◌};
ghost use Rattle.flurry_base.specs.declared.sizes.TheConstants.{MAX_TABLE};

use std::marker::Model;

/// The exponent of a table that a control has published. Only a control makes one.
///
/// It may be kept outside the control, and may be older than the exponent that is published now. A call may start at any table that was
/// once published, since the bins of older tables have moved and lead on to newer ones.
///
/// ```
/// let start: PublishedTable = control.start()?;
/// Some(start.table())
/// ```
#[derive(Drop)]
pub struct PublishedTable {
    table: u8,
}

impl Model for PublishedTable {
    ghost use Rattle.std.specs.Prelude.{ℕ, ◌≤◌};
    ghost use Rattle.flurry_base.specs.declared.sizes.TheConstants.{MAX_TABLE};

    ghost Value = { ℕ };

    ghost view = { λ s. s.table };

    ghost invariant = { λ s. s.table ≤ MAX_TABLE };
}

impl PublishedTable {
    // Creates the certificate of a control that has published `table`.
    pub(crate) fn of(table: u8) -> Self
        requires { table ≤ MAX_TABLE }
        ensures { result ≡ table }
    {
        PublishedTable { table }
    }

    /// Returns the exponent of the table.
    ///
    /// Constant time.
    #[inline]
    pub fn table(&self) -> u8
        ensures value { result ≡ self.now }
        ensures within { result ≤ MAX_TABLE }
    {
        self.table
    }
}

//! Under which numbers the trees of a desk stand.
ghost use Rattle.std.specs.Prelude.{◌≡◌};
ghost use Rattle.canary_tables_schema.specs.Layout.{dense, gapped};

/// The numbers of the trees of a desk's tables and of the first index that is the desk's own. Those
/// of `meta`, `caller` and `kept` are 0, 1 and 3; the index of a key is one above its table.
#[derive(Clone, Copy)]
pub struct Numbers {
    pub service: u32,
    pub run: u32,
    pub measurement: u32,
    pub sequence: u32,
    pub history: u32,
    pub revision: u32,
    pub binding: u32,
    pub tally: u32,
    pub indexes: u32,
    /// Whether the column `place` is declared NOT NULL.
    pub is_placed: bool,
}

// No number is left out.
pub(crate) fn dense(is_placed: bool) -> Numbers
    ensures { result ≡ dense is_placed }
{
    Numbers {
        service: 5,
        run: 7,
        measurement: 9,
        sequence: 11,
        history: 12,
        revision: 13,
        binding: 15,
        tally: 17,
        indexes: 19,
        is_placed,
    }
}

// Those of tables that went are left out.
pub(crate) fn gapped() -> Numbers
    ensures { result ≡ gapped }
{
    Numbers {
        service: 7,
        run: 9,
        measurement: 13,
        sequence: 15,
        history: 16,
        revision: 17,
        binding: 19,
        tally: 21,
        indexes: 23,
        is_placed: false,
    }
}

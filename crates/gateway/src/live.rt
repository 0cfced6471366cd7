// The live table that scans and polls are lent.
ghost use Rattle.std.specs.Prelude.{◌≡◌, ◌≢◌, length, MatchResult};
ghost use Rattle.points.specs.Table.{table_bytes};

use basics::card::Refusal;
use points::table::TABLE_BYTES;

// The live table, where it is of its length.
pub fn whole_table(table: &[u8]) -> Result<&[u8; TABLE_BYTES], Refusal>
    ensures { MatchResult result
        (λ whole. (whole.now ≡ table.now) × (length table.now ≡ table_bytes))
        (λ refusal. (refusal ≡ Refusal.Table) × (length table.now ≢ table_bytes)) }
{
    table.try_into().map_err(|_| Refusal::Table)
}

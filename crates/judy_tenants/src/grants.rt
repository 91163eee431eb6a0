//! What the quotas of a table allow.
ghost use Rattle.std.specs.Prelude.{◌≡◌, ◌*◌, ◌≤◌, length};
ghost use Rattle.judy_tenants.specs.Held.{all_quotas, quotas_of, words_for};

use judy_model::PIECES_LIMIT;
use judy_table::Table;

/// The words of 380 blocks of 512 words. A call takes at most that many blocks.
const CALL_WORDS: u64 = 194_560;

/// The words that a piece has at most.
const PIECE_WORDS: u64 = 16;

/// The pieces of all quotas.
fn all_quotas(table: &Table) -> u64
    ensures sum { result ≡ all_quotas (length table.now) (quotas_of table.now) }
    ensures few { result ≤ PIECES_LIMIT * length table.now }
{
    let mut pieces = 0;
    for place in 0..table.len() {
        pieces += table.quota(table.tenant(place)).pieces;
    }
    pieces
}

/// The most words that are ever live at once under the quotas of a table.
pub fn words_for(table: &Table) -> u64
    ensures { result ≡ words_for table.now }
{
    let _tenants = table.len();
    PIECE_WORDS * all_quotas(table) + CALL_WORDS
}

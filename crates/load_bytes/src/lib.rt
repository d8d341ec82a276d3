// Load over the bytes of the memory table.
#![tactic(auto)]

ghost use Rattle.std.specs.Prelude.{◌≡◌, true, List, ℕ, ◌≤◌, length};
ghost use Rattle.filecalls.specs.CodeFront.{joined};
ghost use Rattle.memory_spans.specs.Span.{places};
ghost use Rattle.memory_bytes.specs.TableBytes.{table_bytes};
ghost use Rattle.load_bytes.specs.LoadOver.{load_over, is_loaded, table_after, load_bytes};

use filecalls::Front;
use loading::LoadRefusal;
use memory_calls::Table;

// Lays the table where the file was loaded.
fn lay_table(answer: Result<usize, LoadRefusal>, t: Table, table: &mut [u8])
    requires { is_loaded answer ≡ true → (length table.old ≡ table_bytes) × ((t.used ≤ places) × (t.granted ≤ places)) }
    ensures { table.new ≡ table_after answer t table.old }
{
    if answer.is_ok() {
        memory_bytes::put_table(table, t);
    }
}

// Loads the CMD file that the control block names; the table is written where all groups were granted.
pub fn load(
    front: Front,
    volume: &[u8],
    fcb: &[u8],
    table: &mut [u8],
    memory: &mut [u8],
) -> Result<usize, LoadRefusal>
    ensures { (held : List ℕ)
        → load_over result table.new memory.new
        ≡ load_bytes (joined front held) volume.now fcb.now table.old memory.old }
{
    let t = memory_bytes::table_of(table);
    let reply = loading::load::load(front, volume, fcb, t, memory);
    let answer = reply.answer;
    let next = reply.table;
    lay_table(answer, next, table);
    answer
}

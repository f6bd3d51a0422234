// One component (station) written, and the components of a process counted.
ghost use Rattle.std.specs.Prelude.{◌≡◌, [], ◌∷◌, ◌+◌, ◌≤◌, length};
ghost use Rattle.buffer.specs.Splice.{written};
ghost use Rattle.hall_layout.specs.Layout.{idle_size};
ghost use Rattle.table_records.specs.Shapes.{kind_byte};
ghost use Rattle.semantics.specs.Definitions.Table.{par_k};
ghost use Rattle.table_terms.specs.Decoded.{kind_at, AProcess};
ghost use Rattle.hall_open.specs.Opening.{CanWriteComponents, ComponentsWritten, ComponentsCounted};

use crate::turns::write_components;
use buffer::write_at;
use hall_layout::{IDLE_SIZE, KIND_OUTPUT, KIND_WAITING, MAX_COMPONENTS};
use table_records::{NIL, PUT};
use table_terms::DECODED;

// A component of two bytes, at an offset: the answer is the offset behind it. Both are stored at once. A turn that is shown
// reads them back at once, and the compiler then leaves out what the turns before it lay down.
pub fn write_idle(hall: &mut [u8], at: usize, kind: u8, body: u8) -> usize
    requires { at + idle_size ≤ length hall.old }
    ensures value { result ≡ at + idle_size }
    ensures hall_after { hall.new ≡ written hall.old at (kind ∷ body ∷ []) idle_size }
{
    write_at(hall, at, &[kind, body]);
    at + IDLE_SIZE
}

// The component of a process that is not two side by side, if it opens into one, at an offset: the answer is the offset
// behind it.
pub fn write_single(decoded: &[u8; DECODED], term: usize, hall: &mut [u8], at: usize) -> usize
    requires can_write_components { CanWriteComponents decoded.now term hall.old at }
    requires not_par { kind_at decoded.now term ≡ kind_byte par_k → ⊥ }
    ensures { ComponentsWritten decoded.now term hall.old at hall.new result }
{
    match table_terms::kind_at(decoded, term) {
        NIL => at,
        PUT => write_idle(hall, at, KIND_OUTPUT, table_terms::first_at(decoded, term)),
        _ => write_idle(hall, at, KIND_WAITING, term as u8),
    }
}

// How many components the process at a term number opens into: written into a buffer, and counted there. A process is
// at most as wide as a hall has components.
pub fn component_count(decoded: &[u8; DECODED], term: usize) -> usize
    requires { AProcess decoded.now term }
    ensures { ComponentsCounted decoded.now term result }
{
    let mut opened = [0u8; IDLE_SIZE * MAX_COMPONENTS];
    write_components(decoded, term, &mut opened, 0) / IDLE_SIZE
}

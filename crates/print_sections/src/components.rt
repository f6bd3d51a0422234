// The lines of components (stations).
ghost use Rattle.std.specs.Prelude.{◌<◌};
ghost use Rattle.print_decimals.specs.Page.{HasRoom};
ghost use Rattle.print_sections.specs.Limits.{component_most, components_most};
ghost use Rattle.print_sections.specs.Printed.{CanPrintComponents, ComponentPrinted, ComponentsPrinted};

use buffer::byte_at;
use hall_layout::{COMPONENT_BODY, Index, KIND_OUTPUT, KIND_WAITING, MAX_NODES, TRANSACTION_HEAD};
use print_decimals::Page;
use print_lines::{LETTER_OUTPUT, LETTER_TRANSACTION, LETTER_WAITING, write_line};

// The line of the component at a position: the channel of an output, the term of one that waits, the term of a
// transaction and how many nodes it has.
fn component_line(hall: &[u8], index: &Index, position: usize, page: &mut Page<'_>)
    requires { CanPrintComponents hall.now index.now.starts index.now.components × (position < index.now.components)
        × HasRoom component_most page.old }
    ensures { ComponentPrinted hall.now index.now.starts index.now.components position page.old page.new }
{
    let begin = index.starts[position];
    let kind = byte_at(hall, begin);
    let body = usize::from(byte_at(hall, begin + COMPONENT_BODY));
    if kind == KIND_OUTPUT {
        write_line(page, LETTER_OUTPUT, &[body]);
    } else if kind == KIND_WAITING {
        write_line(page, LETTER_WAITING, &[body]);
    } else {
        let walk = hall_layout::pass_nodes(hall, begin + TRANSACTION_HEAD, MAX_NODES);
        let nodes = usize::from(MAX_NODES) - walk.left;
        write_line(page, LETTER_TRANSACTION, &[body, nodes]);
    }
}

// The lines of all components, in order.
pub fn component_lines(hall: &[u8], index: &Index, page: &mut Page<'_>)
    requires { CanPrintComponents hall.now index.now.starts index.now.components × HasRoom components_most page.old }
    ensures { ComponentsPrinted hall.now index.now.starts index.now.components page.old page.new }
{
    for position in 0..index.components {
        component_line(hall, index, position, page);
    }
}

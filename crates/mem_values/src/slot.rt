// The slots of memory in which the cells of a file tree lie.
ghost use Rattle.std.specs.Prelude.{◌≡◌, ◌≤◌, ◌<◌, ◌^◌};
ghost use Rattle.mem_values.specs.Lines.{seat_of, slot_in};

// The seat of a node among the cells of its number.
fn seat_of(nodes: usize, number: usize, node: usize) -> usize
    requires few { nodes ≤ 2 ^ 32 }
    requires node { node < 2 ^ 32 }
    ensures { result ≡ seat_of nodes number node }
{
    let stride = nodes / 64;
    if number < 8 && node < 64 * stride {
        node % 64 * stride + node / 64
    } else {
        node
    }
}

/// The slot of a place at a table of so many nodes.
pub(crate) fn slot_in(nodes: usize, place: usize) -> usize
    requires few { nodes ≤ 2 ^ 32 }
    requires place { place < 2 ^ 32 }
    ensures { result ≡ slot_in nodes place }
{
    if place < 16 || 16 + 9 * nodes <= place {
        return place;
    }
    let behind = place - 16;
    let number = behind % 9;
    16 + number * nodes + seat_of(nodes, number, behind / 9)
}

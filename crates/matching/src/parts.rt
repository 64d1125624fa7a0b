// Parts of a question.
ghost use Rattle.std.specs.Prelude.{◌+◌, ◌≤◌};

use linked::atoms::Live;

// What is left to settle: the atoms `own` of the first claim are to be what the atoms `wanted` of the second say. The first
// claim's other atoms stand beside them, since they too say where cells are.
#[derive(Clone, Copy)]
pub struct Part {
    pub own: Live,
    pub others: Live,
    pub wanted: Live,
    ghost room: { own.count + others.count ≤ 64 },
}

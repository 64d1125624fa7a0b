// What comes next from a name: over an atom, or nothing. An enum of its own and no Option, by a rule here (docs/DECISIONS.md,
// Forms).

#[derive(Clone, Copy)]
pub enum Next {
    // over the atom of this number
    Over(usize),
    // no atom leads on
    Stuck,
}

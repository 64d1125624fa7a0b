// What names stand for, and a memory.
ghost use Rattle.std.specs.Prelude.{◌≡◌, IfOk};

use std::alloc::{AllocError, Global};

// An instance of which a claim may hold, as the words that `memory::check` takes.
#[derive(Drop)]
pub struct Instance {
    // the place that each name stands for, in the order of their numbers; the first is nowhere's, and is any
    pub names: Vec<u32>,
    // for each cell its place, and where it leads
    pub memory: Vec<u32>,
}

impl Instance {
    // The instance with these words.
    pub fn copy(heap: Global, names: &[u32], memory: &[u32]) -> Result<Instance, AllocError>
        ensures names { IfOk result (λ i. i.names.items ≡ names.now) }
        ensures memory { IfOk result (λ i. i.memory.items ≡ memory.now) }
    {
        let names = Vec::from_slice(heap, names)?;
        let memory = Vec::from_slice(heap, memory)?;
        Ok(Instance { names, memory })
    }
}

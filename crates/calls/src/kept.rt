// What the calls of a file are made on.
use crate::{cow, edit, files, hier, limits, quota, shape, space};
use call_lines::{Calls, Fault, first_word, numbers_of};
use qg_node::Node;
use qg_qgroups::{Hierarchy, Limits};
use qg_space::Space;
use std::alloc::Global;

/// What the calls of a file are made on: each has what the calls before it left.
#[derive(Drop)]
pub(crate) struct StructureCalls {
    file: Vec<u64>,
    space: Space,
    hierarchy: Hierarchy,
    limits: Limits,
    quota: Node,
}

impl Calls for StructureCalls {
    fn begin(alloc: Global) -> Result<StructureCalls, Fault> {
        Ok(StructureCalls {
            file: Vec::new(alloc),
            space: space::fresh(alloc)?,
            hierarchy: Hierarchy::new(alloc),
            limits: Limits::new(alloc),
            quota: quota::empty(alloc),
        })
    }

    fn answer(&mut self, alloc: Global, name: &str, call: &str) -> Result<String, Fault> {
        let (verb, text) = first_word(call);
        match name {
            "quota" => return quota::answer(alloc, &mut self.quota, verb, text),
            "shape" => return shape::answer(alloc, verb, text),
            _ => {}
        }
        let numbers = numbers_of(alloc, text)?;
        match name {
            "edit" => edit::answer(alloc, verb, &numbers),
            "files" => files::answer(alloc, &mut self.file, verb, &numbers),
            "space" => space::answer(alloc, &mut self.space, verb, &numbers),
            "cow" => cow::answer(alloc, verb, &numbers),
            "hier" => hier::answer(alloc, &mut self.hierarchy, verb, &numbers),
            "limits" => limits::answer(alloc, &mut self.limits, verb, &numbers),
            _ => Err(Fault::Call),
        }
    }
}

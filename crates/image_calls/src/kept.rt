// What the calls of a file are made on.
use crate::image::Image;
use crate::{books, image, refs};
use call_lines::{Calls, Fault, first_word};
use qg_refs::RefList;
use qg_weighed::Weighed;
use std::alloc::Global;

/// What the calls of a file are made on: each has what the calls before it left.
#[derive(Drop)]
pub(crate) struct ImageCalls {
    refs: RefList,
    books: Weighed,
    image: Image,
}

impl Calls for ImageCalls {
    fn begin(alloc: Global) -> Result<ImageCalls, Fault> {
        Ok(ImageCalls {
            refs: RefList::new(alloc),
            books: books::empty(alloc)?,
            image: Image::new(alloc),
        })
    }

    fn answer(&mut self, alloc: Global, name: &str, call: &str) -> Result<String, Fault> {
        let (verb, text) = first_word(call);
        match name {
            "refs" => refs::answer(alloc, &mut self.refs, verb, text),
            "books" => books::answer(alloc, &mut self.books, verb, text),
            "reached" | "references" => image::answer(alloc, &mut self.image, verb, text),
            _ => Err(Fault::Call),
        }
    }
}

// A page that is being written.
use std::alloc::AllocError;

// Its text so far, or that there was no memory left for a piece of it.
#[derive(Drop)]
pub struct Page {
    pub text: Result<String, AllocError>,
}

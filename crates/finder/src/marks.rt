// What an asking notes of a junction, in room that its caller lends.
ghost use Rattle.std.specs.Prelude.{◌≡◌, false, None};

// The reading so far, and whether a site stands at the junction.
#[derive(Clone, Copy)]
pub struct Mark<R> {
    pub(crate) reading: Option<R>,
    pub(crate) sited: bool,
}

impl<R> Mark<R> {
    // No reading yet, and no site. Whatever a mark holds, an asking begins with marks of its own.
    pub fn new() -> Mark<R>
        ensures { result ≡ record { reading = None; sited = false } }
    {
        Mark {
            reading: None,
            sited: false,
        }
    }
}

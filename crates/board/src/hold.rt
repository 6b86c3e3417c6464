// A hold on a bay: a token that holding alone makes, and handing back alone spends.
ghost use Rattle.std.specs.Prelude.{◌≡◌};
ghost use Rattle.board.specs.Held.{hold_bears};

// The number of the board that gave it, and the site of the bay.
pub struct Hold {
    pub(crate) number: u32,
    pub(crate) site: u32,
}

impl Hold {
    pub fn number(&self) -> u32
        ensures { result ≡ (hold_bears self.now).0 }
    {
        self.number
    }

    pub fn site(&self) -> u32
        ensures { result ≡ (hold_bears self.now).1 }
    {
        self.site
    }
}

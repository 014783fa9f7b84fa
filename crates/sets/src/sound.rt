// Whose sound is heard.
ghost use Rattle.std.specs.Prelude.{◌≡◌};
ghost use Rattle.sets.specs.Sounds.{sound_from};

// No option, since the rules name both cases.
#[derive(Clone, Copy, PartialEq, Eq, Debug)]
pub enum Sound {
    // that of the service shown
    Own,
    // that of the service of this number, under the picture of the one shown
    Borrowed(usize),
}

impl From<Option<usize>> for Sound {
    ghost from_gives = { λ borrowed sound. sound ≡ sound_from borrowed };

    // Of the service whose sound is to be borrowed, if there is one.
    fn from(borrowed: Option<usize>) -> Sound {
        borrowed.map_or(Sound::Own, Sound::Borrowed)
    }
}

ghost use Rattle.std.specs.Prelude.{◌≡◌};
ghost use Rattle.dspec_cpu.specs.Lists.{words_of};

use dspec_table::Words;

/// What all threads of a session share.
#[derive(Drop)]
pub struct Shared {
    pub(crate) words: Words,
}

impl Shared {
    /// What is shared is the words.
    pub fn make(words: Words) -> Shared
        ensures { words_of result ≡ words }
    {
        Shared { words }
    }

    /// The words.
    pub fn words(&self) -> &Words
        ensures { result.now ≡ words_of self.now }
    {
        &self.words
    }

    /// The words, when nothing else is shared any more.
    pub fn into_words(self) -> Words
        ensures { result ≡ words_of self }
    {
        let Shared { words } = self;
        words
    }
}

// The files of a command: which arguments name them, what is wrong with the names, and how many words were read.
ghost use Rattle.std.specs.Prelude.{◌≡◌};
ghost use Rattle.command.specs.Files.{names_of, seed_of, shared_name, read_too, clashes, nameless, read_nameless, any_nameless, names_fault, whole_words, noise_words};

use crate::arguments::{Fault, Plan, same};

// Which arguments name the files.
#[derive(Clone, Copy)]
pub struct Names {
    pub sheet: Option<usize>,
    pub noise: Option<usize>,
    pub words: Option<usize>,
    pub result: Option<usize>,
    pub picture: Option<usize>,
}

// The texts of those arguments, the empty one where there is none.
#[derive(Clone, Copy)]
pub struct Texts<'a> {
    pub sheet: &'a [u8],
    pub noise: &'a [u8],
    pub words: &'a [u8],
    pub result: &'a [u8],
    pub picture: &'a [u8],
}

// The names of the files: with a seed there is no noise and no words.
pub fn names_of(plan: Plan) -> Names
    ensures { result ≡ names_of plan }
{
    let files = plan.files;
    if plan.seed.is_some() {
        return Names {
            sheet: files[0],
            noise: None,
            words: None,
            result: files[1],
            picture: plan.svg,
        };
    }
    Names {
        sheet: files[0],
        noise: files[1],
        words: files[2],
        result: files[3],
        picture: plan.svg,
    }
}

// The seed of noise and words, or none where they are read from files.
pub fn seed_of(plan: Plan) -> Option<u32>
    ensures { result ≡ seed_of plan }
{
    if plan.seed.is_none() && plan.count == 0 {
        return Some(7);
    }
    plan.seed
}

// Whether a file is named, and another has the same name.
fn shared(name: &[u8], other: &[u8]) -> bool
    ensures { result ≡ shared_name name.now other.now }
{
    !name.is_empty() && same(name, other)
}

// Whether a file that is to be written has the name of one that is read.
fn read_too(name: &[u8], texts: &Texts) -> bool
    ensures { result ≡ read_too name.now texts.now.sheet.now texts.now.noise.now texts.now.words.now }
{
    shared(name, texts.sheet) || shared(name, texts.noise) || shared(name, texts.words)
}

// Whether a file that is to be written has the name of another; a file that is not asked for has the empty name.
fn clash(texts: &Texts) -> bool
    ensures { result ≡ clashes texts.now.sheet.now texts.now.noise.now texts.now.words.now texts.now.result.now texts.now.picture.now }
{
    shared(texts.result, texts.picture)
        || read_too(texts.result, texts)
        || read_too(texts.picture, texts)
}

// Whether a file is asked for and has no name.
fn unnamed(index: Option<usize>, text: &[u8]) -> bool
    ensures { result ≡ nameless index text.now }
{
    index.is_some() && text.is_empty()
}

// Whether a file that is read has no name.
fn read_unnamed(names: Names, texts: &Texts) -> bool
    ensures { result ≡ read_nameless names texts.now.sheet.now texts.now.noise.now texts.now.words.now }
{
    unnamed(names.sheet, texts.sheet)
        || unnamed(names.noise, texts.noise)
        || unnamed(names.words, texts.words)
}

// Whether a file that is written or read has no name.
fn any_unnamed(names: Names, texts: &Texts) -> bool
    ensures { result ≡ any_nameless names texts.now.sheet.now texts.now.noise.now texts.now.words.now texts.now.result.now texts.now.picture.now }
{
    unnamed(names.result, texts.result)
        || unnamed(names.picture, texts.picture)
        || read_unnamed(names, texts)
}

// What is wrong with the names of the files, by their texts.
pub fn fault_of(names: Names, texts: &Texts) -> Option<Fault>
    ensures { result ≡ names_fault names texts.now.sheet.now texts.now.noise.now texts.now.words.now texts.now.result.now texts.now.picture.now }
{
    if any_unnamed(names, texts) {
        Some(Fault::NoName)
    } else if clash(texts) {
        Some(Fault::Clash)
    } else {
        None
    }
}

// How many words so many bytes are, or none where they end within one.
pub fn whole_words(bytes: usize) -> Option<usize>
    ensures { result ≡ whole_words bytes }
{
    if bytes % 4 == 0 {
        Some(bytes / 4)
    } else {
        None
    }
}

// How many noise words a file has, of which so many bytes were read and `more` follow or not.
pub fn noise_words(bytes: usize, more: bool) -> Option<usize>
    ensures { result ≡ noise_words bytes more }
{
    if more { Some(1025) } else { whole_words(bytes) }
}

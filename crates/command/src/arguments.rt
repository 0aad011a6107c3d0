// The arguments, one after the other: options, and files in their order.
ghost use Rattle.std.specs.Prelude.{◌≡◌};
ghost use Rattle.command.specs.Arguments as meaning;
ghost use Rattle.command.specs.Arguments.{fault_number, same_text, kind_of, digit_more, number_in, empty_plan, with_fault, with_wait, named, with_seed, with_svg, with_file, with_word, stepped, fault_of};

// What is wrong with what is asked, in the order of its sentences.
#[derive(Clone, Copy)]
pub enum Fault {
    NoSeed,
    NoPicture,
    NoSuchOption,
    TooManyFiles,
    NoNoise,
    SeedAndNoise,
    Clash,
    TooLarge,
    NoName,
    // Another, by its number.
    Other(usize),
}

// The number of its sentence.
pub fn fault_number(fault: Fault) -> usize
    ensures { result ≡ fault_number fault }
{
    match fault {
        Fault::NoSeed => 1,
        Fault::NoPicture => 2,
        Fault::NoSuchOption => 3,
        Fault::TooManyFiles => 4,
        Fault::NoNoise => 5,
        Fault::SeedAndNoise => 6,
        Fault::Clash => 7,
        Fault::TooLarge => 8,
        Fault::NoName => 9,
        Fault::Other(number) => number,
    }
}

// What an option wants in the argument after it.
#[derive(Clone, Copy)]
pub enum Wait {
    Seed,
    Picture,
    // Another, by its number. No option wants it, so the argument is taken for itself.
    Other(usize),
}

// What an argument is that no option waits for: a file's name, an option, or what looks like one.
#[derive(Clone, Copy)]
enum Kind {
    File,
    Waits(Wait),
    Other,
}

// What the arguments ask for so far.
#[derive(Clone, Copy)]
pub struct Plan {
    pub seed: Option<u32>,
    // Which argument names the picture's file, and which ones name the others, in their order, and how many do.
    pub svg: Option<usize>,
    pub files: [Option<usize>; 4],
    pub count: usize,
    // What the next argument is for, where an option waits.
    pub waits: Option<Wait>,
    // The first fault.
    pub fault: Option<Fault>,
}

// Whether two texts are the same.
pub fn same(a: &[u8], b: &[u8]) -> bool
    ensures { result ≡ same_text a.now b.now }
{
    a == b
}

// Whether a text starts as an option does.
fn dashed(text: &[u8]) -> bool
    ensures { result ≡ meaning.dashed text.now }
{
    text.len() >= 2 && text[0] == b'-'
}

fn kind_of(text: &[u8]) -> Kind
    ensures { result ≡ kind_of text.now }
{
    if same(text, b"--seed") {
        Kind::Waits(Wait::Seed)
    } else if same(text, b"--svg") {
        Kind::Waits(Wait::Picture)
    } else if dashed(text) {
        Kind::Other
    } else {
        Kind::File
    }
}

// One digit more, where it is a digit and the number stays below 2^32.
fn digit_more(value: u32, byte: u8) -> Option<u32>
    ensures { result ≡ digit_more value byte }
{
    if !byte.is_ascii_digit() {
        return None;
    }
    value.checked_mul(10)?.checked_add(u32::from(byte - b'0'))
}

// The number that a text holds in decimal.
pub fn number_in(text: &[u8]) -> Option<u32>
    ensures { result ≡ number_in text.now }
{
    if text.is_empty() {
        return None;
    }
    let mut value = 0;
    for byte in text {
        value = digit_more(value, *byte)?;
    }
    Some(value)
}

// Before the first argument.
pub fn begin() -> Plan
    ensures { result ≡ empty_plan }
{
    Plan {
        seed: None,
        svg: None,
        files: [None; 4],
        count: 0,
        waits: None,
        fault: None,
    }
}

fn with_fault(plan: Plan, fault: Fault) -> Plan
    ensures { result ≡ with_fault plan fault }
{
    Plan {
        fault: Some(fault),
        ..plan
    }
}

// What the next argument is for.
fn with_wait(plan: Plan, wait: Wait) -> Plan
    ensures { result ≡ with_wait plan wait }
{
    Plan {
        waits: Some(wait),
        ..plan
    }
}

// The argument that names a file: number 0 is the program's own name, and names none.
fn named(index: usize) -> Option<usize>
    ensures { result ≡ named index }
{
    if index == 0 { None } else { Some(index) }
}

fn with_seed(plan: Plan, text: &[u8]) -> Plan
    ensures { result ≡ with_seed plan text.now }
{
    match number_in(text) {
        None => with_fault(plan, Fault::NoSeed),
        Some(seed) => Plan {
            seed: Some(seed),
            waits: None,
            ..plan
        },
    }
}

// The picture's file. An option in its place says that the name was forgotten.
fn with_svg(plan: Plan, index: usize, text: &[u8]) -> Plan
    ensures { result ≡ with_svg plan index text.now }
{
    if dashed(text) {
        return with_fault(plan, Fault::NoPicture);
    }
    Plan {
        svg: named(index),
        waits: None,
        ..plan
    }
}

fn with_file(plan: Plan, index: usize) -> Plan
    ensures { result ≡ with_file plan index }
{
    let count = plan.count;
    if count < 4 {
        let mut files = plan.files;
        files[count] = named(index);
        return Plan {
            files,
            count: count + 1,
            ..plan
        };
    }
    with_fault(plan, Fault::TooManyFiles)
}

// An argument that no option waits for.
fn with_word(plan: Plan, index: usize, text: &[u8]) -> Plan
    ensures { result ≡ with_word plan index text.now }
{
    match kind_of(text) {
        Kind::File => with_file(plan, index),
        Kind::Waits(wait) => with_wait(plan, wait),
        Kind::Other => with_fault(plan, Fault::NoSuchOption),
    }
}

// One argument more, by its number and its text.
pub fn step(plan: Plan, index: usize, text: &[u8]) -> Plan
    ensures { result ≡ stepped plan index text.now }
{
    if plan.fault.is_some() {
        return plan;
    }
    match plan.waits {
        Some(Wait::Seed) => with_seed(plan, text),
        Some(Wait::Picture) => with_svg(plan, index, text),
        Some(Wait::Other(_)) | None => with_word(plan, index, text),
    }
}

// What is wrong with the files, by whether there is a seed.
fn files_fault(plan: Plan) -> Option<Fault>
    ensures { result ≡ meaning.files_fault plan }
{
    if plan.seed.is_some() {
        if plan.count < 3 {
            None
        } else {
            Some(Fault::SeedAndNoise)
        }
    } else if plan.count == 1 || plan.count == 2 {
        Some(Fault::NoNoise)
    } else {
        None
    }
}

// After the last argument: the first fault.
pub fn fault_of(plan: Plan) -> Option<Fault>
    ensures { result ≡ fault_of plan }
{
    if plan.fault.is_some() {
        return plan.fault;
    }
    match plan.waits {
        Some(Wait::Seed) => Some(Fault::NoSeed),
        Some(Wait::Picture) => Some(Fault::NoPicture),
        Some(Wait::Other(number)) => Some(Fault::Other(number)),
        None => files_fault(plan),
    }
}

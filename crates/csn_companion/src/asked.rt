//! What is asked of the companion.

ghost use Rattle.std.specs.Prelude.{◌≡◌, IfSome, IsSome};
ghost use Rattle.csn_desc.specs.declared.reading.Reading.{Reading};
ghost use Rattle.csn_companion.specs.declared.asked.Job.{Job};
ghost use Rattle.csn_companion.specs.Words.{job_word, reading_word};

use csn_desc::Reading;

/// What may be asked of the companion.
#[derive(Clone, Copy, Debug, PartialEq, Eq)]
pub enum Job {
    /// Whether the rule has a certified description, and if not what is wrong, in words.
    Check,
    /// The nodes of the description of the rule.
    Nodes,
    /// The fields of blocks with their places, for other programs.
    Fields,
    /// The fields of blocks as tables, for people.
    Show,
    /// The fields of blocks as a page of HTML.
    Picture,
    /// The blocks of trees, or why there is none, in words.
    Write,
    /// Blocks that are strings.
    Blocks(Order),
    /// Few blocks that go all ways that the strings of the rule can go.
    Cover,
    /// Blocks that are nearly strings.
    Nearly,
}

/// Which blocks are made: how many, from which seed, and whether each is told with its tree.
#[derive(Clone, Copy, Debug, PartialEq, Eq)]
pub struct Order {
    pub count: u32,
    pub seed: u64,
    pub trees: bool,
}

impl Order {
    /// No blocks.
    pub const NONE: Order = Order {
        count: 0,
        seed: 0,
        trees: false,
    };

    /// The order of two words that are numbers.
    pub fn of_words(count: &str, seed: &str, trees: bool) -> Option<Order>
        ensures { IfSome result (λ order. order.trees ≡ trees) }
    {
        Some(Order {
            count: count.parse::<u32>().ok()?,
            seed: seed.parse::<u64>().ok()?,
            trees,
        })
    }
}

/// What is asked for, of the rule of a file.
#[derive(Clone, Copy)]
pub struct Asked<'a> {
    pub job: Job,
    /// The file of the description.
    pub file: &'a str,
    /// The name of the rule.
    pub name: &'a str,
    pub reading: Reading,
}

impl Job {
    /// The word that asks for it.
    pub fn word<'a>(self) -> &'a str
        ensures { result.now ≡ job_word self }
    {
        match self {
            Job::Check => "check",
            Job::Nodes => "nodes",
            Job::Fields => "fields",
            Job::Show => "show",
            Job::Picture => "picture",
            Job::Write => "write",
            Job::Blocks(_) => "blocks",
            Job::Cover => "cover",
            Job::Nearly => "nearly",
        }
    }

    /// The job that a word asks for. Of blocks it asks for none.
    pub fn of_word(word: &str) -> Option<Job>
        ensures named { IfSome result (λ job. word.now ≡ job_word job) }
        ensures none { (job : Job) → word.now ≡ job_word job → IsSome result }
    {
        match word.as_bytes() {
            b"check" => Some(Job::Check),
            b"nodes" => Some(Job::Nodes),
            b"fields" => Some(Job::Fields),
            b"show" => Some(Job::Show),
            b"picture" => Some(Job::Picture),
            b"write" => Some(Job::Write),
            b"blocks" => Some(Job::Blocks(Order::NONE)),
            b"cover" => Some(Job::Cover),
            b"nearly" => Some(Job::Nearly),
            _ => None,
        }
    }
}

/// The reading that a word names.
pub fn reading_of(word: &str) -> Option<Reading>
    ensures named { IfSome result (λ reading. word.now ≡ reading_word reading) }
    ensures none { (reading : Reading) → word.now ≡ reading_word reading → IsSome result }
{
    match word.as_bytes() {
        b"received" => Some(Reading::Received),
        b"sent" => Some(Reading::Sent),
        _ => None,
    }
}

//! What the words ask for.
use crate::choice::ClassDelay;
use crate::verb::Verb;
use el_base::List;

/// The values of the options, `None` and `false` where one is not used; and the number that the plain words give, where the
/// command takes one.
#[derive(Drop)]
pub struct Chosen {
    pub seed: Option<u64>,
    pub delay: Option<List<ClassDelay>>,
    pub slots: Option<u64>,
    pub depth: Option<u64>,
    pub workers: Option<u64>,
    pub limit: Option<u64>,
    pub turns: Option<u64>,
    pub at: Option<u64>,
    pub count: bool,
    pub cycles: bool,
    pub log: bool,
    pub forward: bool,
    pub wrap: bool,
}

/// A command with its plain words and the values of its options.
#[derive(Drop)]
pub struct Command<'a> {
    pub verb: Verb,
    pub plain: Vec<&'a str>,
    pub chosen: Chosen,
}

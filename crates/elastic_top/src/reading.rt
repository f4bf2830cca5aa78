//! The files of a command, read in order.
ghost use Rattle.std.specs.Prelude.{◌≡◌, ◌≢◌, ◌<◌, ◌≤◌, ◌↔◌, ◌++◌, ◌∷◌, [], ℕ, List, length, get_or, map, IfOk, IfErr, OnOk};
ghost use Rattle.el_io.specs.Outside.{Rose, IsHeld, IsWhole, MayPass};
ghost use Rattle.command_words.specs.Commands.{word_texts};
ghost use Rattle.elastic_top.specs.Files.{wanted};
ghost use Rattle.elastic_top.specs.Reading.{code_of, contents_of, file_of, AreHeld, EndsReading, IsFileFault};

use crate::fault::Fault;
use command_words::PlainKind;
use el_base::Memory;
use el_io::{FileFail, Files, Got};
use std::alloc::Global;

/// A file to be read: the word that names it, and its greatest length in bytes.
#[derive(Clone, Copy)]
pub struct File<'a> {
    pub name: &'a str,
    pub limit: u64,
}

/// The files that plain words of these kinds name, in order.
pub fn files_of<'a>(
    alloc: Global,
    kinds: &[PlainKind],
    words: &[&'a str],
) -> Result<Vec<File<'a>>, Memory>
    requires { length words.now ≡ length kinds.now }
    ensures { IfOk result (λ plan.
        map file_of plan.items ≡ wanted kinds.now (word_texts words.now)) }
{
    let mut plan = Vec::new(alloc);
    for i in 0..kinds.len() {
        push_file(&mut plan, kind_at(kinds, i), word_at(words, i))?;
    }
    Ok(plan)
}

fn kind_at(kinds: &[PlainKind], i: usize) -> PlainKind
    requires { i < length kinds.now }
    ensures { result ≡ get_or kinds.now i result }
{
    kinds[i]
}

fn word_at<'a>(words: &[&'a str], i: usize) -> &'a str
    requires { i < length words.now }
    ensures { result ≡ get_or words.now i result }
{
    words[i]
}

fn push_file<'a>(plan: &mut Vec<File<'a>>, kind: PlainKind, word: &'a str) -> Result<(), Memory>
    ensures { OnOk result (map file_of plan.new.items
        ≡ map file_of plan.old.items ++ wanted (kind ∷ []) (word.entry.now ∷ [])) }
{
    match kind {
        PlainKind::File(limit) => plan.push(File { name: word, limit })?,
        PlainKind::Seed => {}
    }
    Ok(())
}

/// Reads the files in order.
pub fn read_all<'a, F: Files>(
    alloc: Global,
    files: &mut F,
    plan: &[File<'a>],
) -> Result<Vec<Vec<u8>>, Fault<'a>>
    ensures ok { IfOk result (λ contents. AreHeld (F.holds files.old)
        (map file_of plan.now) (contents_of contents.items)) }
    ensures failed { code_of result ≡ 2 → Rose (F.faults files.old) (F.faults files.new) }
    ensures long { code_of result ≡ 12 → Rose (F.longs files.old) (F.longs files.new) }
    ensures longs { code_of result ≢ 12 → F.longs files.new ≡ F.longs files.old }
    ensures fault { IfErr result (EndsReading (F.holds files.old) (F.steady files.old)
        (F.long files.new) (map file_of plan.now)) }
{
    let mut contents = Vec::new(alloc);
    for i in 0..plan.len() {
        match read(alloc, files, file_at(plan, i)) {
            Err(fault) => return Err(fault),
            Ok(bytes) => {
                if contents.push(bytes).is_err() {
                    return Err(Fault::Memory);
                }
            }
        }
    }
    Ok(contents)
}

fn file_at<'a>(plan: &[File<'a>], i: usize) -> File<'a>
    requires { i < length plan.now }
    ensures { result ≡ get_or plan.now i result }
{
    plan[i]
}

fn read<'a, F: Files>(alloc: Global, files: &mut F, file: File<'a>) -> Result<Vec<u8>, Fault<'a>>
    ensures ok { IfOk result (λ bytes.
        IsWhole (F.holds files.old file.entry.name.now) file.entry.limit bytes.items) }
    ensures failed { code_of result ≡ 2 → Rose (F.faults files.old) (F.faults files.new) }
    ensures long { code_of result ≡ 12 → Rose (F.longs files.old) (F.longs files.new) }
    ensures longs { code_of result ≢ 12 → F.longs files.new ≡ F.longs files.old }
    ensures later { F.faults files.old ≤ F.faults files.new }
    ensures holds { (n : List ℕ) → F.holds files.new n ≡ F.holds files.old n }
    ensures steady { F.steady files.new ↔ F.steady files.old }
    ensures fault { IfErr result (IsFileFault (F.holds files.old file.entry.name.now)
        (F.steady files.old) (F.long files.new) (file_of file.entry)) }
{
    let mut bytes = Vec::new(alloc);
    match files.read(file.name, file.limit, &mut bytes) {
        Ok(Got::Whole) => Ok(bytes),
        Ok(Got::Longer) => Err(Fault::TooLong(file.name)),
        Err(FileFail::Failed) => Err(Fault::Read(file.name)),
        Err(FileFail::Memory) => Err(Fault::Memory),
    }
}

//! The words of a command.
ghost use Rattle.std.specs.Prelude.{◌≡◌, ◌≤◌, map, filter_map, option_map, is_some, length, string_bytes, IfOk};
ghost use Rattle.std.specs.List.{list_any};
ghost use Rattle.std.specs.Str.{bytes_eq, all_ascii_digits};
ghost use Rattle.ctw_script.specs.MoveValues.{argument_value};
ghost use Rattle.ctw_inputs.specs.Parts.{part_named};
ghost use Rattle.ctw_words.specs.NamedFiles.{named_file, named_files};
ghost use Rattle.ctw_words.specs.SessionWords.{arguments_of, part_words, run_words, once_words, same_in_run, same_in_once};
ghost use Rattle.ctw_words.specs.Words.{file_words, infer_words, link_words, number_word, work_words, profiled_command, mul_command, command_of};
ghost use Rattle.ctw_words.specs.Commands.{command_in};

use ctw_inputs::PartFile;
use ctw_ops::Profile;
use ctw_script::{Arg, argument};
use std::alloc::{AllocError, Global};
use std::marker::Model;

/// Whether each word is an argument.
fn are_arguments(words: &[String]) -> bool
    ensures { result ≡ is_some (arguments_of (map string_bytes words.now)) }
{
    'words: for word in words {
        if argument(word.as_str()).is_none() {
            return false;
        }
    }
    true
}

/// The arguments that words are, in order; other words are passed over.
fn read_arguments(alloc: Global, words: &[String]) -> Result<Vec<Arg>, AllocError>
    ensures { IfOk result (λ arguments. arguments.items ≡ filter_map argument_value (map string_bytes words.now)) }
{
    let mut arguments = Vec::new(alloc);
    'words: for word in words {
        let Some(next) = argument(word.as_str()) else {
            continue 'words;
        };
        arguments.push(next)?;
    }
    Ok(arguments)
}

/// Words that are arguments of a call, each `*` or a number as in a script. Contracts see the arguments that they are.
#[derive(Drop)]
pub struct ArgumentWords<'a> {
    words: &'a [String],
}

impl<'a> Model for ArgumentWords<'a> {
    ghost use Rattle.std.specs.Prelude.{◌≡◌, List, Some, map, filter_map, string_bytes};
    ghost use Rattle.ctw_script.specs.declared.moves.Arg.{Arg as AnArg};
    ghost use Rattle.ctw_script.specs.MoveValues.{argument_value};
    ghost use Rattle.ctw_words.specs.SessionWords.{arguments_of};

    ghost Value = { List AnArg };

    ghost view = { λ w. filter_map argument_value (map string_bytes w.words.now) };

    ghost invariant = { λ w. arguments_of (map string_bytes w.words.now)
        ≡ Some (filter_map argument_value (map string_bytes w.words.now)) };
}

impl<'a> ArgumentWords<'a> {
    /// The arguments, in order.
    pub fn read(&self, alloc: Global) -> Result<Vec<Arg>, AllocError>
        ensures { IfOk result (λ arguments. arguments.items ≡ self.now) }
    {
        read_arguments(alloc, self.words)
    }
}

/// The words of arguments; None where one of them is none.
fn argument_words(words: &[String]) -> Option<ArgumentWords<'_>>
    ensures { result ≡ arguments_of (map string_bytes words.now) }
{
    if !are_arguments(words) {
        return None;
    }
    Some(ArgumentWords { words })
}

/// The words of `once M VAULT SEALED EXPORT ARG..`.
#[derive(Drop)]
pub struct Once<'a> {
    /// The file of the one part.
    pub module_file: &'a str,
    /// The file of the vault.
    pub vault: &'a str,
    /// The file that the sealed bytes are saved as.
    pub sealed: &'a str,
    /// The exported function that is called.
    pub export: &'a str,
    /// Its arguments.
    pub arguments: ArgumentWords<'a>,
}

impl<'a> Model for Once<'a> {
    ghost use Rattle.ctw_words.specs.SessionWords.{OnceWords};

    ghost Value = { OnceWords };

    ghost view = { λ w.
        record {
          module_file = w.module_file.now;
          vault = w.vault.now;
          sealed = w.sealed.now;
          export = w.export.now;
          arguments = w.arguments;
        } };
}

/// The most parts of a command.
const MOST_PARTS: usize = 64;

/// The greatest seed of a workload.
const MOST_SEED: u32 = 2_147_483_647;

/// The greatest size of a workload.
const MOST_SIZE: u32 = 20_000;

/// What a word NAME=M names; None where it has another form.
fn part_file(word: &str) -> Option<PartFile<'_>>
    ensures { option_map part_named result ≡ named_file word.now }
{
    let (name, file) = word.split_once('=')?;
    if name.is_empty() {
        return None;
    }
    Some(PartFile { name, file })
}

/// Whether each word has the form NAME=M.
fn are_named(words: &[String]) -> bool
    ensures { result ≡ is_some (named_files (map string_bytes words.now)) }
{
    'words: for word in words {
        if part_file(word.as_str()).is_none() {
            return false;
        }
    }
    true
}

/// Words of the form NAME=M, 1 to 64. Contracts see the parts that they name.
#[derive(Drop)]
pub struct PartWords<'a> {
    words: &'a [String],
}

impl<'a> Model for PartWords<'a> {
    ghost use Rattle.std.specs.Prelude.{◌≡◌, ◌≤◌, List, Some, map, length, filter_map, string_bytes};
    ghost use Rattle.ctw_inputs.specs.Inputs.{NamedFile};
    ghost use Rattle.ctw_words.specs.NamedFiles.{named_file, named_files};

    ghost Value = { List NamedFile };

    ghost view = { λ w. filter_map named_file (map string_bytes w.words.now) };

    ghost invariant = { λ w. (1 ≤ length w.words.now) × (length w.words.now ≤ 64)
        × (named_files (map string_bytes w.words.now) ≡ Some (filter_map named_file (map string_bytes w.words.now))) };
}

/// The parts that words of the form NAME=M name, in order; words of another form name none.
fn part_files<'a>(alloc: Global, words: &'a [String]) -> Result<Vec<PartFile<'a>>, AllocError>
    ensures { IfOk result (λ parts. map part_named parts.items ≡ filter_map named_file (map string_bytes words.now)) }
{
    let mut parts = Vec::new(alloc);
    'words: for word in words {
        let Some(part) = part_file(word.as_str()) else {
            continue 'words;
        };
        parts.push(part)?;
    }
    Ok(parts)
}

impl<'a> PartWords<'a> {
    /// The parts that they name, in order.
    pub fn parts(&self, alloc: Global) -> Result<Vec<PartFile<'a>>, AllocError>
        ensures named { IfOk result (λ parts. map part_named parts.items ≡ self.now) }
        ensures some { 1 ≤ length self.now }
        ensures few { length self.now ≤ 64 }
    {
        part_files(alloc, self.words)
    }
}

impl<'a> PartWords<'a> {
    /// Whether one of the parts has this file.
    fn has_file(&self, file: &str) -> bool
        ensures { result ≡ list_any (bytes_eq file.now) (map (λ p. p.file) self.now) }
    {
        'words: for word in self.words {
            let Some(part) = part_file(word.as_str()) else {
                continue 'words;
            };
            if file == part.file {
                return true;
            }
        }
        false
    }
}

/// 1 to 64 words NAME=M; None where they have another form.
fn part_words(words: &[String]) -> Option<PartWords<'_>>
    ensures { result ≡ part_words (map string_bytes words.now) }
{
    if words.is_empty() || words.len() > MOST_PARTS || !are_named(words) {
        return None;
    }
    Some(PartWords { words })
}

/// The words behind `link`; None where they have another form.
fn link_words(words: &[String]) -> Option<PartWords<'_>>
    ensures { result ≡ link_words (map string_bytes words.now) }
{
    let [command, parts @ ..] = words else {
        return None;
    };
    if command.as_str() != "link" {
        return None;
    }
    part_words(parts)
}

/// The words of `run SCRIPT VAULT SEALED NAME=M..`.
#[derive(Drop)]
pub struct Run<'a> {
    /// The file of the moves.
    pub script: &'a str,
    /// The file of the vault.
    pub vault: &'a str,
    /// The file that the sealed bytes are saved as.
    pub sealed: &'a str,
    /// The parts and their files.
    pub parts: PartWords<'a>,
}

impl<'a> Model for Run<'a> {
    ghost use Rattle.ctw_words.specs.SessionWords.{RunWords};

    ghost Value = { RunWords };

    ghost view = { λ w.
        record { script = w.script.now; vault = w.vault.now; sealed = w.sealed.now; parts = w.parts } };
}

impl<'a> Run<'a> {
    /// VAULT where it is the word of another file too, else SEALED where it is.
    pub fn same_file(&self) -> Option<&'a str>
        ensures { option_map (λ word. word.now) result ≡ same_in_run self.now }
    {
        if self.vault == self.sealed
            || self.vault == self.script
            || self.parts.has_file(self.vault)
        {
            return Some(self.vault);
        }
        if self.sealed == self.script || self.parts.has_file(self.sealed) {
            return Some(self.sealed);
        }
        None
    }
}

/// The words of `run`; None where they have another form.
fn run_words(words: &[String]) -> Option<Run<'_>>
    ensures { result ≡ run_words (map string_bytes words.now) }
{
    let [command, script, vault, sealed, others @ ..] = words else {
        return None;
    };
    if command.as_str() != "run" {
        return None;
    }
    let parts = part_words(others)?;
    Some(Run {
        script: script.as_str(),
        vault: vault.as_str(),
        sealed: sealed.as_str(),
        parts,
    })
}

/// The words of `once`; None where they have another form.
fn once_words(words: &[String]) -> Option<Once<'_>>
    ensures { result ≡ once_words (map string_bytes words.now) }
{
    let [command, module_file, vault, sealed, export, others @ ..] = words else {
        return None;
    };
    if command.as_str() != "once" {
        return None;
    }
    let arguments = argument_words(others)?;
    Some(Once {
        module_file: module_file.as_str(),
        vault: vault.as_str(),
        sealed: sealed.as_str(),
        export: export.as_str(),
        arguments,
    })
}

impl<'a> Once<'a> {
    /// VAULT where it is the word of another file too, else SEALED where it is.
    pub fn same_file(&self) -> Option<&'a str>
        ensures { option_map (λ word. word.now) result ≡ same_in_once self.now }
    {
        if self.vault == self.sealed || self.vault == self.module_file {
            return Some(self.vault);
        }
        if self.sealed == self.module_file {
            return Some(self.sealed);
        }
        None
    }
}

/// A command with its words.
#[derive(Drop)]
pub enum Command<'a> {
    /// `check M`, under a profile.
    Check(Profile, &'a str),
    /// `canon M`.
    Canon(&'a str),
    /// `assemble T`.
    Assemble(&'a str),
    /// `text M`, under a profile.
    Text(Profile, &'a str),
    /// `infer M MARKS`, under a profile.
    Infer(Profile, &'a str, &'a str),
    /// `strip M`, under a profile.
    Strip(Profile, &'a str),
    /// `link NAME=M..`, under a profile.
    Link(Profile, PartWords<'a>),
    /// `run SCRIPT VAULT SEALED NAME=M..`, under a profile.
    Run(Profile, Run<'a>),
    /// `once M VAULT SEALED EXPORT ARG..`, under a profile.
    Once(Profile, Once<'a>),
    /// `work SEED SIZE`, under a profile.
    Work(Profile, u32, u32),
}

/// The one word behind that of a command; None where the words have another form.
fn file_word<'a>(name: &str, words: &'a [String]) -> Option<&'a str>
    ensures { option_map (λ file. file.now) result ≡ file_words name.now (map string_bytes words.now) }
{
    let [command, file] = words else {
        return None;
    };
    if command.as_str() != name {
        return None;
    }
    Some(file.as_str())
}

/// The two words behind `infer`; None where the words have another form.
fn infer_words(words: &[String]) -> Option<(&str, &str)>
    ensures { option_map (λ files. (files.0.now, files.1.now)) result ≡ infer_words (map string_bytes words.now) }
{
    let [command, file, marks] = words else {
        return None;
    };
    if command.as_str() != "infer" {
        return None;
    }
    Some((file.as_str(), marks.as_str()))
}

/// Whether each byte is a decimal digit.
fn are_digits(bytes: &[u8]) -> bool
    ensures { result ≡ all_ascii_digits bytes.now }
{
    'bytes: for b in bytes {
        if !b.is_ascii_digit() {
            return false;
        }
    }
    true
}

/// The number that decimal digits write, where it is from `least` to `most`; None where the word has another form.
fn number_word(word: &str, least: u32, most: u32) -> Option<u32>
    ensures { result ≡ number_word least most word.now }
{
    if word.is_empty() || !are_digits(word.as_bytes()) {
        return None;
    }
    let Ok(number) = word.parse::<u32>() else {
        return None;
    };
    if number < least || number > most {
        return None;
    }
    Some(number)
}

/// The seed and the size behind `work`; None where the words have another form.
fn work_words(words: &[String]) -> Option<(u32, u32)>
    ensures { result ≡ work_words (map string_bytes words.now) }
{
    let [command, seed, size] = words else {
        return None;
    };
    if command.as_str() != "work" {
        return None;
    }
    let seed = number_word(seed.as_str(), 0, MOST_SEED)?;
    let size = number_word(size.as_str(), 1, MOST_SIZE)?;
    Some((seed, size))
}

/// The command to which a profile matters; None where the words have the form of none.
fn profiled_command(profile: Profile, words: &[String]) -> Option<Command<'_>>
    ensures { option_map command_in result ≡ profiled_command profile (map string_bytes words.now) }
{
    if let Some(file) = file_word("check", words) {
        return Some(Command::Check(profile, file));
    }
    if let Some(file) = file_word("text", words) {
        return Some(Command::Text(profile, file));
    }
    if let Some((file, marks)) = infer_words(words) {
        return Some(Command::Infer(profile, file, marks));
    }
    if let Some(file) = file_word("strip", words) {
        return Some(Command::Strip(profile, file));
    }
    if let Some(parts) = link_words(words) {
        return Some(Command::Link(profile, parts));
    }
    if let Some(run) = run_words(words) {
        return Some(Command::Run(profile, run));
    }
    if let Some(once) = once_words(words) {
        return Some(Command::Once(profile, once));
    }
    match work_words(words) {
        Some((seed, size)) => Some(Command::Work(profile, seed, size)),
        None => None,
    }
}

/// Such a command behind the word `mul`, under which multiplications leak; None where the words have another form.
fn mul_command(words: &[String]) -> Option<Command<'_>>
    ensures { option_map command_in result ≡ mul_command (map string_bytes words.now) }
{
    let [word, command @ ..] = words else {
        return None;
    };
    if word.as_str() != "mul" {
        return None;
    }
    profiled_command(Profile::Multiply, command)
}

/// The command that the words have the form of; None where they have none.
pub fn command_of(words: &[String]) -> Option<Command<'_>>
    ensures { option_map command_in result ≡ command_of (map string_bytes words.now) }
{
    if let Some(command) = profiled_command(Profile::Divide, words) {
        return Some(command);
    }
    if let Some(command) = mul_command(words) {
        return Some(command);
    }
    if let Some(file) = file_word("canon", words) {
        return Some(Command::Canon(file));
    }
    match file_word("assemble", words) {
        Some(file) => Some(Command::Assemble(file)),
        None => None,
    }
}

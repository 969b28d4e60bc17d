ghost use Rattle.std.specs.Prelude.{◌≡◌, IfOk, IsTrue, map};
ghost use Rattle.dspec_schedule.specs.SetUp.{config_read, configuration_of, enabling_read, field_of, field_of_word, header_of_words, numbered, policy_of_word, policy_of_words, version_of};

use crate::fault::LineKind;
use crate::grammar::only;
use crate::number::{are_numbers, number, small_number};
use dspec_deeds::{Config, Policy};
use dspec_record::{Enablings, Field, Header};

/// The most fields of an enabling.
const MAX_FIELDS: usize = 8;

/// The configuration of the words after `config`, with the policy that a schedule has which names none.
#[tactic(auto, unfolding(crate::specs::SetUp::config_read))]
pub fn config(words: &[&str]) -> Result<Config, LineKind>
    ensures { result ≡ config_read (map (λ word. word.now) words.now) }
{
    let config = configuration(words)?;
    config.check().map_err(LineKind::ConfigRefused)?;
    Ok(config)
}

/// The configuration of a list of six numbers.
#[tactic(auto, unfolding(crate::specs::SetUp::configuration_of))]
fn configuration(words: &[&str]) -> Result<Config, LineKind>
    ensures { result ≡ configuration_of (map (λ word. word.now) words.now) }
{
    match words {
        [cpus, nspec, bufsize, specsize, issues, calls] => {
            from_numbers(cpus, nspec, bufsize, specsize, issues, calls)
        }
        _ => Err(LineKind::WordCount),
    }
}

/// The configuration of six numbers, in the order of its fields.
#[tactic(auto, unfolding(crate::specs::SetUp::numbered))]
fn from_numbers(
    cpus: &str,
    nspec: &str,
    bufsize: &str,
    specsize: &str,
    issues: &str,
    calls: &str,
) -> Result<Config, LineKind>
    ensures { result ≡ numbered cpus.now nspec.now bufsize.now specsize.now issues.now calls.now }
{
    Ok(Config {
        cpus: small_number(cpus)?,
        nspec: small_number(nspec)?,
        bufsize: small_number(bufsize)?,
        specsize: small_number(specsize)?,
        max_issues: number(issues)?,
        max_calls: number(calls)?,
        policy: Policy::Switch,
    })
}

/// The header of the words after `header`, where one may be named.
#[tactic(auto, unfolding(crate::specs::SetUp::header_of_words))]
pub fn header(may_be_named: bool, words: &[&str]) -> Result<Header, LineKind>
    ensures read { result ≡ header_of_words may_be_named (map (λ word. word.now) words.now) }
    ensures named { IfOk result (λ _. IsTrue may_be_named) }
{
    let version = number(only(words)?)?;
    if may_be_named {
        of_version(version)
    } else {
        Err(LineKind::BadHeader)
    }
}

/// The header of a version.
#[tactic(auto, unfolding(crate::specs::SetUp::version_of))]
fn of_version(version: u64) -> Result<Header, LineKind>
    ensures { result ≡ version_of version }
{
    match version {
        1 => Ok(Header::One),
        2 => Ok(Header::Two),
        _ => Err(LineKind::BadHeader),
    }
}

/// The policy of the words after `policy`, where one may be named.
#[tactic(auto, unfolding(crate::specs::SetUp::policy_of_words))]
pub fn policy(may_be_named: bool, words: &[&str]) -> Result<Policy, LineKind>
    ensures { result ≡ policy_of_words may_be_named (map (λ word. word.now) words.now) }
{
    let word = only(words)?;
    if may_be_named {
        named_policy(word)
    } else {
        Err(LineKind::BadPolicy)
    }
}

/// The policy of a name.
#[tactic(auto, unfolding(crate::specs::SetUp::policy_of_word))]
fn named_policy(word: &str) -> Result<Policy, LineKind>
    ensures { result ≡ policy_of_word word.now }
{
    match word {
        "switch" => Ok(Policy::Switch),
        "fill" => Ok(Policy::Fill),
        _ => Err(LineKind::BadPolicy),
    }
}

/// The enablings with one more, whose widths the words after `enable` are, if there are any. None is added after a
/// turn.
#[tactic(auto, unfolding(crate::specs::SetUp::enabling_read))]
pub fn enabling(
    before_turns: bool,
    mut enablings: Enablings,
    words: &[&str],
) -> Result<Enablings, LineKind>
    ensures read { result ≡ enabling_read before_turns enablings (map (λ word. word.now) words.now) }
    ensures header { IfOk result (λ after. after.header ≡ enablings.header) }
{
    if !are_numbers(words) {
        return Err(LineKind::BadNumber);
    }
    if !before_turns || words.len() > MAX_FIELDS {
        return Err(LineKind::BadEnabling);
    }
    let mut fields = [Field::One; MAX_FIELDS];
    for (index, word) in words.iter().enumerate() {
        fields[index] = word_field(word)?;
    }
    match enablings.enable(&fields[..words.len()]) {
        Ok(_) => Ok(enablings),
        Err(_) => Err(LineKind::BadEnabling),
    }
}

/// The field whose width a word is.
#[tactic(auto, unfolding(crate::specs::SetUp::field_of_word))]
fn word_field(word: &str) -> Result<Field, LineKind>
    ensures { result ≡ field_of_word word.now }
{
    field(number(word)?)
}

/// The field of a width in bytes.
#[tactic(auto, unfolding(crate::specs::SetUp::field_of))]
fn field(width: u64) -> Result<Field, LineKind>
    ensures { result ≡ field_of width }
{
    match width {
        1 => Ok(Field::One),
        2 => Ok(Field::Two),
        4 => Ok(Field::Four),
        8 => Ok(Field::Eight),
        _ => Err(LineKind::BadEnabling),
    }
}

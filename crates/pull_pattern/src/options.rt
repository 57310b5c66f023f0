//! The options of an item: names and values in turn, each at most once.
ghost use Rattle.std.specs.Prelude.{◌≡◌, Some, IfOk, IfErr};
ghost use Rattle.std.specs.Option.{option_map};
ghost use Rattle.edn_form.specs.View.{form_of, forms_of};
ghost use Rattle.pull_model.specs.Reading as reading;
ghost use Rattle.pull_pattern.specs.Answers.{Gives, Refuses};
ghost use Rattle.pull_pattern.specs.View.{model_label, model_limit, model_options, model_option};

use crate::patterns::{Label, Limit, Options};
use crate::stops::Stop;
use edn_form::Edn;
use std::alloc::Global;
use std::sync::Arc;

/// The greatest number of values, or of times.
const GREATEST_COUNT: i64 = 2_147_483_647;

#[derive(Clone, Copy)]
enum OptionName {
    As,
    Default,
    Limit,
}

/// A number of values, or of times.
pub fn count_in(f: &Edn) -> Option<u32>
    ensures { result ≡ reading.count_in (form_of f.now) }
{
    match f {
        Edn::Int(n) if 1 <= *n && *n <= GREATEST_COUNT => Some(*n as u32),
        _ => None,
    }
}

/// Adds the options that the forms give to those that are given so far.
pub fn add_options(alloc: Global, options: &mut Options, forms: &[Edn]) -> Result<(), Stop>
    ensures given { IfOk result (λ _. Some (model_options options.new)
        ≡ reading.options_from (model_options options.old) (forms_of forms.now)) }
    ensures refused { IfErr result (λ stop. Refuses stop
        (reading.options_from (model_options options.old) (forms_of forms.now))) }
{
    match forms {
        [] => Ok(()),
        [_] => Err(Stop::OtherForm),
        [name, value, rest @ ..] => {
            add_option(alloc, options, name, value)?;
            add_options(alloc, options, rest)
        }
    }
}

fn add_option(alloc: Global, options: &mut Options, name: &Edn, value: &Edn) -> Result<(), Stop>
    ensures given { IfOk result (λ _. Some (model_options options.new)
        ≡ reading.with_option (model_options options.old) (reading.option_name_in (form_of name.now))
        (form_of value.now)) }
    ensures refused { IfErr result (λ stop. Refuses stop
        (reading.with_option (model_options options.old) (reading.option_name_in (form_of name.now))
        (form_of value.now))) }
{
    match option_name_in(name) {
        Some(OptionName::As) => rename(options, value),
        Some(OptionName::Default) => add_default(alloc, options, value),
        Some(OptionName::Limit) => add_limit(options, value),
        None => Err(Stop::OtherForm),
    }
}

fn option_name_in(f: &Edn) -> Option<OptionName>
    ensures { option_map model_option result ≡ reading.option_name_in (form_of f.now) }
{
    match f {
        Edn::Key(k) => option_named(k.as_str()),
        _ => None,
    }
}

fn option_named(k: &str) -> Option<OptionName>
    ensures { option_map model_option result ≡ reading.option_name_of k.now }
{
    if k == "as" {
        Some(OptionName::As)
    } else if k == "default" {
        Some(OptionName::Default)
    } else if k == "limit" {
        Some(OptionName::Limit)
    } else {
        None
    }
}

fn rename(options: &mut Options, value: &Edn) -> Result<(), Stop>
    ensures given { IfOk result (λ _. Some (model_options options.new)
        ≡ reading.with_option (model_options options.old) (Some reading.as_name) (form_of value.now)) }
    ensures refused { IfErr result (λ stop. Refuses stop
        (reading.with_option (model_options options.old) (Some reading.as_name) (form_of value.now))) }
{
    if options.renamed.is_some() {
        return Err(Stop::OtherForm);
    }
    options.renamed = Some(label_of(value)?);
    Ok(())
}

fn label_of(f: &Edn) -> Result<Label, Stop>
    ensures { Gives model_label (reading.key_in (form_of f.now)) result }
{
    match f {
        Edn::Key(k) => Ok(Label::Key(k.copy()?)),
        Edn::Str(s) => Ok(Label::Str(s.copy()?)),
        _ => Err(Stop::OtherForm),
    }
}

fn add_default(alloc: Global, options: &mut Options, value: &Edn) -> Result<(), Stop>
    ensures given { IfOk result (λ _. Some (model_options options.new)
        ≡ reading.with_option (model_options options.old) (Some reading.default_name)
        (form_of value.now)) }
    ensures refused { IfErr result (λ stop. Refuses stop
        (reading.with_option (model_options options.old) (Some reading.default_name)
        (form_of value.now))) }
{
    if options.default.is_some() {
        return Err(Stop::OtherForm);
    }
    options.default = Some(Arc::new(alloc, value.copy()?)?);
    Ok(())
}

fn add_limit(options: &mut Options, value: &Edn) -> Result<(), Stop>
    ensures given { IfOk result (λ _. Some (model_options options.new)
        ≡ reading.with_option (model_options options.old) (Some reading.limit_name)
        (form_of value.now)) }
    ensures refused { IfErr result (λ stop. Refuses stop
        (reading.with_option (model_options options.old) (Some reading.limit_name)
        (form_of value.now))) }
{
    if options.limit.is_some() {
        return Err(Stop::OtherForm);
    }
    options.limit = Some(limit_of(value).ok_or(Stop::OtherForm)?);
    Ok(())
}

fn limit_of(f: &Edn) -> Option<Limit>
    ensures { option_map model_limit result ≡ reading.limit_in (form_of f.now) }
{
    match f {
        Edn::Nil => Some(Limit::All),
        _ => Some(Limit::First(count_in(f)?)),
    }
}

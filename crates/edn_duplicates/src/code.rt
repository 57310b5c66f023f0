//! The code of a form: its tokens laid out flat, the parts of a set and of a map in order. It is made of a whole form, or
//! of the codes of its parts, so that what closes inside another is sorted once.
ghost use Rattle.std.specs.Prelude.{◌≡◌, [], ◌∷◌, length, map, vec_items, IfOk, IfSome, IsPermutation};
ghost use Rattle.edn_model.specs.Form as model;
ghost use Rattle.edn_form.specs.View.{form_of, forms_of, pairs_of};
ghost use Rattle.edn_duplicates.specs.Code.{IsCode, AreCodes, ArePairCodes, joined, InOrder, IsRising};
ghost use Rattle.edn_duplicates.specs.Order.{token_cmp};
ghost use Rattle.edn_duplicates.specs.declared.token.CodeToken.TheVariants.{Sequence, Map, Set};

use crate::spelling::spell;
use crate::token::CodeToken;
use edn_form::Edn;
use fb_memory::Memory;
use std::alloc::Global;

/// The recursion is as deep as the form.
#[cycle(code)]
pub fn code(alloc: Global, form: &Edn) -> Result<Vec<CodeToken>, Memory>
    ensures { IfOk result (λ c. IsCode token_cmp (form_of form.now) c.items) }
{
    match form {
        Edn::Nil => single(alloc, CodeToken::Nil),
        Edn::Bool(b) => single(alloc, CodeToken::Bool(*b)),
        Edn::Int(n) => single(alloc, CodeToken::Int(*n)),
        Edn::Str(text) => single(alloc, CodeToken::Str(spell(text)?)),
        Edn::Sym(text) => single(alloc, CodeToken::Sym(spell(text)?)),
        Edn::Key(text) => single(alloc, CodeToken::Key(spell(text)?)),
        Edn::List(items) => sequence(alloc, codes(alloc, items.as_slice())?),
        Edn::Vector(items) => sequence(alloc, codes(alloc, items.as_slice())?),
        Edn::Map(pairs) => map(alloc, pair_codes(alloc, pairs.as_slice())?),
        Edn::Set(items) => set(alloc, codes(alloc, items.as_slice())?),
        Edn::Inst(millis) => single(alloc, CodeToken::Inst(*millis)),
        Edn::Uuid(uuid) => single(alloc, CodeToken::Uuid(*uuid)),
    }
}

/// The one token that is the code of a form which holds no other.
pub(crate) fn only_token(form: &Edn) -> Result<Option<CodeToken>, Memory>
    ensures { IfOk result
        (λ found. IfSome found (λ token. IsCode token_cmp (form_of form.now) (token ∷ []))) }
{
    Ok(match form {
        Edn::Nil => Some(CodeToken::Nil),
        Edn::Bool(b) => Some(CodeToken::Bool(*b)),
        Edn::Int(n) => Some(CodeToken::Int(*n)),
        Edn::Str(text) => Some(CodeToken::Str(spell(text)?)),
        Edn::Sym(text) => Some(CodeToken::Sym(spell(text)?)),
        Edn::Key(text) => Some(CodeToken::Key(spell(text)?)),
        Edn::Inst(millis) => Some(CodeToken::Inst(*millis)),
        Edn::Uuid(uuid) => Some(CodeToken::Uuid(*uuid)),
        _ => None,
    })
}

/// The codes of forms, in the order of these.
#[cycle(code)]
fn codes(alloc: Global, items: &[Edn]) -> Result<Vec<Vec<CodeToken>>, Memory>
    ensures { IfOk result
        (λ cs. AreCodes token_cmp (model.forms (forms_of items.now)) (map vec_items cs.items)) }
{
    let mut codes = Vec::with_capacity(alloc, items.len())?;
    for item in items.iter() {
        codes.push(code(alloc, item)?)?;
    }
    Ok(codes)
}

/// The codes of a map's pairs, each as a sequence of its key and its value.
#[cycle(code)]
fn pair_codes(alloc: Global, pairs: &[(Edn, Edn)]) -> Result<Vec<Vec<CodeToken>>, Memory>
    ensures { IfOk result
        (λ cs. ArePairCodes token_cmp (model.pairs (pairs_of pairs.now)) (map vec_items cs.items)) }
{
    let mut codes = Vec::with_capacity(alloc, pairs.len())?;
    for (key, value) in pairs.iter() {
        codes.push(pair(alloc, code(alloc, key)?, code(alloc, value)?)?)?;
    }
    Ok(codes)
}

/// The code of a key and its value, as a part of a map.
pub fn pair(
    alloc: Global,
    key: Vec<CodeToken>,
    value: Vec<CodeToken>,
) -> Result<Vec<CodeToken>, Memory>
    ensures { IfOk result (λ c. c.items ≡ joined (Sequence 2) (key.items ∷ value.items ∷ [])) }
{
    let mut tokens = single(alloc, CodeToken::Sequence(2))?;
    let (mut key, mut value) = (key, value);
    tokens.append(&mut key)?;
    tokens.append(&mut value)?;
    Ok(tokens)
}

/// The code of a list or a vector, from its members' codes.
pub fn sequence(alloc: Global, parts: Vec<Vec<CodeToken>>) -> Result<Vec<CodeToken>, Memory>
    ensures { IfOk result (λ c. c.items
        ≡ joined (Sequence (length (map vec_items parts.items))) (map vec_items parts.items)) }
{
    let front = CodeToken::Sequence(parts.len());
    join(alloc, front, parts)
}

/// The code of a set, from its members' codes.
pub fn set(alloc: Global, parts: Vec<Vec<CodeToken>>) -> Result<Vec<CodeToken>, Memory>
    ensures { IfOk result (λ c. InOrder token_cmp Set (map vec_items parts.items) c.items) }
{
    let parts = sorted(parts)?;
    let front = CodeToken::Set(parts.len());
    join(alloc, front, parts)
}

/// The code of a map, from its pairs' codes.
pub fn map(alloc: Global, parts: Vec<Vec<CodeToken>>) -> Result<Vec<CodeToken>, Memory>
    ensures { IfOk result (λ c. InOrder token_cmp Map (map vec_items parts.items) c.items) }
{
    let parts = sorted(parts)?;
    let front = CodeToken::Map(parts.len());
    join(alloc, front, parts)
}

fn sorted(parts: Vec<Vec<CodeToken>>) -> Result<Vec<Vec<CodeToken>>, Memory>
    ensures shuffled { IfOk result
        (λ s. IsPermutation (map vec_items parts.items) (map vec_items s.items)) }
    ensures rises { IfOk result (λ s. IsRising token_cmp (map vec_items s.items)) }
{
    let mut parts = parts;
    parts.sort()?;
    Ok(parts)
}

fn join(
    alloc: Global,
    front: CodeToken,
    parts: Vec<Vec<CodeToken>>,
) -> Result<Vec<CodeToken>, Memory>
    ensures { IfOk result (λ c. c.items ≡ joined front (map vec_items parts.items)) }
{
    let mut tokens = single(alloc, front)?;
    for part in parts {
        let mut part = part;
        tokens.append(&mut part)?;
    }
    Ok(tokens)
}

fn single(alloc: Global, token: CodeToken) -> Result<Vec<CodeToken>, Memory>
    ensures { IfOk result (λ c. c.items ≡ token ∷ []) }
{
    let mut tokens = Vec::with_capacity(alloc, 1)?;
    tokens.push(token)?;
    Ok(tokens)
}

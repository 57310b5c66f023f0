//! What comes next, by its first two bytes.
ghost use Rattle.std.specs.Prelude.{◌∷◌};
ghost use Rattle.edn_model.specs.Bytes.{hash};
ghost use Rattle.edn_token.specs.Gaps.{GoesNoFurther};
ghost use Rattle.edn_core.specs.Fronts.{FrontIs};

#[derive(Clone, Copy)]
pub(crate) enum Front {
    End,
    Quote,
    /// This bracket, which closes.
    Closing(u8),
    Discard,
    List,
    Vector,
    Map,
    Set,
    Token,
}

/// Neither white space nor a comment may be here.
pub(crate) fn front_of(here: &[u8]) -> Front
    requires { GoesNoFurther here.now }
    ensures { FrontIs here.now result }
{
    let Some((first, behind)) = here.split_first() else {
        return Front::End;
    };
    match *first {
        b'"' => Front::Quote,
        b')' => Front::Closing(b')'),
        b']' => Front::Closing(b']'),
        b'}' => Front::Closing(b'}'),
        b'(' => Front::List,
        b'[' => Front::Vector,
        b'{' => Front::Map,
        b'#' => behind_hash(behind),
        _ => Front::Token,
    }
}

fn behind_hash(behind: &[u8]) -> Front
    ensures { FrontIs (hash ∷ behind.now) result }
{
    let Some((second, _)) = behind.split_first() else {
        return Front::Token;
    };
    match *second {
        b'_' => Front::Discard,
        b'{' => Front::Set,
        _ => Front::Token,
    }
}

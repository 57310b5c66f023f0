//! Copies of forms: the program moves them.
use edn_form::{Edn, Items, Pairs};
use edn_print::print;
use fb_memory::Memory;
use fb_text::Text;
use std::alloc::Global;
use std::test::Fail;

/// A map with a list in it, `{1 ("a" nil)}`.
fn map_with_list(alloc: Global) -> Result<Edn, Memory> {
    let list = list(alloc)?;
    Ok(Edn::Map(Pairs::of(vec![in alloc; (Edn::Int(1), list)]?)))
}

fn list(alloc: Global) -> Result<Edn, Memory> {
    let text = Edn::Str(Text::of(alloc, "a")?);
    Ok(Edn::List(Items::of(vec![in alloc; text, Edn::Nil]?)))
}

fn print_copy(form: &Edn, text: &mut Vec<u8>) -> Result<(), Memory> {
    let copy = form.copy()?;
    print(&copy, text)
}

fn copied(alloc: Global) -> Result<Vec<u8>, Memory> {
    let form = map_with_list(alloc)?;
    let mut text = Vec::new(alloc);
    print_copy(&form, &mut text)?;
    Ok(text)
}

#[test]
fn a_form_can_be_copied(rt: HostRuntime) -> Result<(), Fail> {
    let copied = copied(rt.alloc())?;
    assert_eq!(rt; copied.as_slice(), b"{1 (\"a\" nil)}".as_slice());
    Ok(())
}

//! Scripts by the plain session.
use crate::forms::next_form;
use crate::rows::Terms;
use anyhow::Result;
use edn_form::Edn;
use edn_print::print;
use plain_session::PlainSession;
use std::alloc::Global;

/// A script that the plain session has answered, and can go on with.
#[derive(Drop)]
pub(crate) struct PlainScript {
    alloc: Global,
    session: PlainSession,
    pub(crate) script: String,
    pub(crate) lines: Vec<u8>,
}

impl PlainScript {
    pub(crate) fn of(alloc: Global, script: &str, terms: Terms) -> Result<PlainScript> {
        let mut plain = PlainScript {
            alloc,
            session: session_of(alloc, terms)?,
            script: String::new(alloc),
            lines: Vec::new(alloc),
        };
        plain.go_on(script)?;
        Ok(plain)
    }

    /// The same script with more commands.
    pub(crate) fn followed_by(&self, commands: &str) -> Result<PlainScript> {
        let mut plain = self.copy()?;
        plain.go_on(commands)?;
        Ok(plain)
    }

    fn copy(&self) -> Result<PlainScript> {
        let script = String::from_str(self.alloc, self.script.as_str())?;
        let mut lines = Vec::new(self.alloc);
        lines.extend_from_slice(&self.lines)?;
        Ok(PlainScript {
            alloc: self.alloc,
            session: self.session.copy()?,
            script,
            lines,
        })
    }

    fn go_on(&mut self, commands: &str) -> Result<()> {
        let bytes = commands.as_bytes();
        let mut at = 0;
        for _ in 0..bytes.len() {
            match self.answer_next(bytes, at)? {
                Some(behind) => at = behind,
                None => break,
            }
        }
        self.script.push_str(commands)?;
        Ok(())
    }

    /// Answers the next command, if there is one. It gives the place after it.
    fn answer_next(&mut self, commands: &[u8], at: usize) -> Result<Option<usize>> {
        let Some((form, behind)) = next_form(self.alloc, commands, at)? else {
            return Ok(None);
        };
        self.answer(&form)?;
        Ok(Some(behind))
    }

    fn answer(&mut self, form: &Edn) -> Result<()> {
        let reply = self.session.reply(form)?;
        print(&reply, &mut self.lines)?;
        self.lines.push(b'\n')?;
        Ok(())
    }
}

/// A session that is still to be asked.
fn session_of(alloc: Global, terms: Terms) -> Result<PlainSession> {
    let session = PlainSession::new(alloc, terms.clock.first, terms.clock.step)?;
    if !terms.is_strict {
        return Ok(session);
    }
    Ok(session.strict())
}

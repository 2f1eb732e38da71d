//! The lines of a text.
ghost use Rattle.std.specs.Prelude.{◌≡◌, MatchResult};
ghost use Rattle.text.specs.Readers.{at};
ghost use Rattle.forms.specs.Lines.{out, numbers_of, sporadic_of, angular_of, mode_of, link_of, end_of, body_of, form_of, line_of};
ghost use Rattle.forms.specs.Reads.{Spelled, Formless, Reads};

use super::{Reader, Token};
use forms::form::{Form, NoForm};
use forms::keyword::Keyword;

impl Reader<'_> {
    /// As many numbers, each after a space, and the end of the line.
    fn numbers<const N: usize>(&mut self) -> Result<[u32; N], NoForm>
        ensures { out result (at self.new) ≡ numbers_of N (at self.old) }
    {
        let mut numbers = [0; N];
        for number in numbers.iter_mut() {
            *number = self.field()?;
        }
        self.line_end()?;
        Ok(numbers)
    }

    /// The four numbers of a sporadic task.
    fn sporadic(&mut self) -> Result<Form, NoForm>
        ensures { out result (at self.new) ≡ sporadic_of (at self.old) }
    {
        let [number, cost, period, deadline] = self.numbers::<4>()?;
        Ok(Form::Sporadic {
            number,
            cost,
            period,
            deadline,
        })
    }

    /// The number of an angular task.
    fn angular(&mut self) -> Result<Form, NoForm>
        ensures { out result (at self.new) ≡ angular_of (at self.old) }
    {
        let [number] = self.numbers::<1>()?;
        Ok(Form::Angular { number })
    }

    /// The two numbers of a mode.
    fn mode(&mut self) -> Result<Form, NoForm>
        ensures { out result (at self.new) ≡ mode_of (at self.old) }
    {
        let [cost, deadline] = self.numbers::<2>()?;
        Ok(Form::Mode { cost, deadline })
    }

    /// The three numbers of a link.
    fn link(&mut self) -> Result<Form, NoForm>
        ensures { out result (at self.new) ≡ link_of (at self.old) }
    {
        let [from, to, gap] = self.numbers::<3>()?;
        Ok(Form::Link { from, to, gap })
    }

    /// The two numbers of the end.
    fn end(&mut self) -> Result<Form, NoForm>
        ensures { out result (at self.new) ≡ end_of (at self.old) }
    {
        let [count, place] = self.numbers::<2>()?;
        Ok(Form::End { count, place })
    }

    /// What follows the keyword.
    fn body(&mut self, key: Keyword) -> Result<Form, NoForm>
        ensures { out result (at self.new) ≡ body_of key (at self.old) }
    {
        match key {
            Keyword::Sporadic => self.sporadic(),
            Keyword::Angular => self.angular(),
            Keyword::Mode => self.mode(),
            Keyword::Link => self.link(),
            Keyword::End => self.end(),
        }
    }

    /// A keyword and what follows it.
    fn form(&mut self) -> Result<Form, NoForm>
        ensures step { out result (at self.new) ≡ form_of (at self.old) }
        ensures reads { MatchResult result (λ f. Spelled (at self.old) f (at self.new)) (λ _. Formless (at self.old)) }
    {
        match self.word() {
            Token::Word { bytes, .. } => self.body(Keyword::try_from(bytes)?),
            Token::Number { .. } => Err(NoForm),
        }
    }

    /// The line that begins here. Where it has none of the five forms, the reader stays.
    pub fn read_line(&mut self) -> Result<Form, NoForm>
        ensures step { out result (at self.new) ≡ line_of (at self.old) }
        ensures reads { Reads (at self.old) result (at self.new) }
    {
        let mut ahead = *self;
        let form = ahead.form()?;
        *self = ahead;
        Ok(form)
    }
}

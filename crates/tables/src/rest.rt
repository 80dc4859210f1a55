ghost use Rattle.std.specs.Prelude.{◌≡◌, ◌<◌, true, false, MatchResult};
ghost use Rattle.tables.specs.Asked.{decl_at, decls_in};
ghost use Rattle.tables.specs.Known.{sizes_by};
ghost use Rattle.tables.specs.Rest.{ok_rest};
ghost use Rattle.tables.specs.Sizes.{Fixed};
ghost use Rattle.tables.specs.Tables.{datas_in, sigs_in};

use crate::fault::Fault;
use crate::refs::DataRef;
use crate::repeated::once;
use crate::rows::Declared;
use crate::sizing::Sizing;
use crate::span::Span;

impl Sizing<'_> {
    // What is asked of a data type: its constructors, its last function, its size.
    fn check_data(self, number: usize) -> Result<(), Fault>
        requires { number < self.tables.done.datas }
        ensures { MatchResult result (λ _. decl_at self.entry.tables self.entry.sizes.now number ≡ true) (λ _. decl_at self.entry.tables self.entry.sizes.now number ≡ false) }
    {
        let tables = self.tables;
        let data = DataRef { tables, number };
        if let Some(ctor) = data.bad_ctor() {
            return Err(Fault::Fields(ctor.name()));
        }
        if !data.last_ok() {
            return Err(Fault::Last(data.name()));
        }
        if self.sizes[number] == 0 {
            return Err(Fault::Size(data.name()));
        }
        Ok(())
    }

    // The same of each.
    fn check_datas(self) -> Result<(), Fault>
        ensures { MatchResult result (λ _. decls_in self.entry.tables self.entry.sizes.now ≡ true) (λ _. decls_in self.entry.tables self.entry.sizes.now ≡ false) }
    {
        // A `for` with `?`, which says what try_for_each would.
        for number in 0..self.tables.done.datas {
            self.check_data(number)?;
        }
        Ok(())
    }

    // What is asked of a program besides its functions: no name twice, the data types, and main.
    pub fn check_rest(self) -> Result<(), Fault>
        requires { Fixed (datas_in self.tables) (sizes_by self) }
        ensures { MatchResult result (λ _. ok_rest (datas_in self.entry.tables) (sigs_in self.entry.tables) ≡ true) (λ _. ok_rest (datas_in self.entry.tables) (sigs_in self.entry.tables) ≡ false) }
    {
        let tables = self.tables;
        let done = tables.done;
        once::<Declared, _>(
            tables.text,
            tables.datas,
            Span::up_to(done.datas),
            Fault::DataTwice,
        )?;
        once::<Declared, _>(
            tables.text,
            tables.ctors,
            Span::up_to(done.ctors.first),
            Fault::CtorTwice,
        )?;
        once::<Declared, _>(
            tables.text,
            tables.fns,
            Span::up_to(done.fns),
            Fault::FnTwice,
        )?;
        self.check_datas()?;
        if tables.main_ok() {
            Ok(())
        } else {
            Err(Fault::Main)
        }
    }
}

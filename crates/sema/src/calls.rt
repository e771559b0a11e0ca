// Calls: the callee, the result, then how many arguments, then which, then of which types.
ghost use Rattle.std.specs.Prelude.{◌≡◌, ◌+◌, ◌*◌, ◌≤◌, length, get_or, ok_or, IfOk};
ghost use Rattle.functions.specs.Columns.{ret_at, count_at, formals_at, IsRow};
ghost use Rattle.functions.specs.Rows.{at_most16, types_at, row_from};
ghost use Rattle.utils.specs.Limits.{most_formals};
ghost use Rattle.sema.specs.Symbols.{typed, then_typed, enter_d, facts};
ghost use Rattle.sema.specs.Typing.{present_d, types_of, same_all, type_arguments_d, type_call_d, type_call_into_d};
ghost use Rattle.body.specs.Records.{named};
ghost use Rattle.sema.specs.Items.{variables_at};
ghost use Rattle.sema.specs.Globals.{globals_in};

use crate::{Arguments, Sema, symbols};
use functions::{columns, known};
use parser::{Refusal, VARIABLE_CELLS, types};
use pieces::Identifier;
use utils::{cell_at, limits, numbers};

// The name of an argument, or 0 past the slice's end.
fn argument_at(arguments: &[u32], at: usize) -> Identifier
    requires { at ≤ 8589934592 }
    ensures { result ≡ named (get_or arguments.now (at * 2) 0) }
{
    Identifier(cell_at(arguments, at * VARIABLE_CELLS))
}

// 16 for the first argument that has no type.
fn look_arguments(
    table: &[u32],
    token: usize,
    arguments: &[u32],
    run: Arguments,
) -> Result<(), Refusal>
    ensures { typed table.now result
        ≡ present_d table.now token (variables_at arguments.now run.first run.count) }
{
    for i in 0..run.count {
        let at = run.first as usize + i as usize;
        symbols::look(table, token, argument_at(arguments, at))?;
    }
    Ok(())
}

// 17 for the first argument whose type is not the formal's; the formals' types stand at every second cell from `formal`
// on.
fn compare_arguments(
    table: &[u32],
    token: usize,
    arguments: &[u32],
    run: Arguments,
    rows: &[u32],
    formal: usize,
) -> Result<(), Refusal>
    requires { formal + run.count * 2 ≤ length rows.now }
    ensures { typed table.now result
        ≡ same_all table.now token
        (types_of table.now (variables_at arguments.now run.first run.count))
        (types_at rows.now formal run.count) }
{
    for i in 0..run.count {
        let at = run.first as usize + i as usize;
        let wanted = rows[formal + i as usize * VARIABLE_CELLS + 1];
        let found = symbols::get(table, argument_at(arguments, at));
        symbols::expect_type(token, found, wanted)?;
    }
    Ok(())
}

// A row has room for 16 formals.
#[tactic(auto, unfolding(utils::specs::Bytes::pick))]
pub(crate) fn at_most_16(n: u32) -> u32
    ensures { (result ≡ at_most16 n) × (result ≤ most_formals) }
{
    n.min(limits::MOST_FORMALS)
}

// The result type of the function in row i.
pub(crate) fn result_type(rows: &[u32], i: usize) -> u32
    requires { IsRow rows.now i }
    ensures { result ≡ get_or rows.now (ret_at i) 0 }
{
    rows[columns::RESULT + i * columns::ROW]
}

impl<'a> Sema<'a> {
    // The arguments of a call of the function in row i.
    #[tactic(auto, using(crate::proofs::Turns::length_types, crate::proofs::Turns::length_variables), unfolding(crate::specs::Symbols::opened, crate::specs::Typing::type_arguments_d))]
    fn analyze_arguments(
        self,
        table: &[u32],
        token: usize,
        i: usize,
        run: Arguments,
    ) -> Result<(), Refusal>
        requires { IsRow self.rows.now i }
        ensures { typed table.now result ≡ type_arguments_d table.now token
            (types_at self.entry.rows.now (formals_at i) (at_most16 (get_or self.entry.rows.now (count_at i) 0)))
            (variables_at self.entry.arguments.now run.first run.count) }
    {
        let formals = at_most_16(self.rows[columns::COUNT + i * columns::ROW]);
        let count = run.count;
        if formals != count {
            let none = Identifier(0);
            return Err(symbols::refusal(numbers::OTHER_COUNT, token, formals, count, none));
        }
        look_arguments(table, token, self.arguments, run)?;
        let formal = columns::FORMALS + i * columns::ROW;
        compare_arguments(table, token, self.arguments, run, self.rows, formal)
    }

    // The row of the callee; 16 where no function has its name.
    fn find_callee(self, token: usize, callee: Identifier) -> Result<usize, Refusal>
        ensures value { result
            ≡ ok_or (row_from self.entry.rows.now 0 self.entry.functions callee.0) (facts 16 token 0 0 callee) }
        ensures row { IfOk result (IsRow self.entry.rows.now) }
    {
        let undefined = symbols::refusal(numbers::UNDEFINED, token, 0, 0, callee);
        known::find_function(self.rows, self.functions, callee).ok_or(undefined)
    }

    // A call whose result nobody takes.
    #[tactic(auto, unfolding(crate::specs::Symbols::opened, crate::specs::Typing::type_call_d, crate::specs::Typing::then_global))]
    pub(crate) fn analyze_call(
        self,
        table: &[u32],
        token: usize,
        callee: Identifier,
        run: Arguments,
    ) -> Result<(), Refusal>
        ensures { typed table.now result
            ≡ type_call_d table.now (globals_in self.entry.rows.now self.entry.functions callee.0) token callee
            (variables_at self.entry.arguments.now run.first run.count) }
    {
        let i = self.find_callee(token, callee)?;
        if result_type(self.rows, i) != types::VOID {
            return Err(parser::refuse(numbers::NO_VALUE, token));
        }
        self.analyze_arguments(table, token, i, run)
    }

    // The result is entered before the arguments are looked up.
    #[tactic(auto, unfolding(crate::specs::Symbols::opened))]
    fn enter_result(
        self,
        table: &mut [u32],
        token: usize,
        i: usize,
        res: Identifier,
        ty: u32,
        run: Arguments,
    ) -> Result<(), Refusal>
        requires { IsRow self.rows.now i }
        ensures { typed table.new result ≡ then_typed (enter_d table.old token res ty)
            (λ t. type_arguments_d t token
            (types_at self.entry.rows.now (formals_at i) (at_most16 (get_or self.entry.rows.now (count_at i) 0)))
            (variables_at self.entry.arguments.now run.first run.count)) }
    {
        symbols::insert(table, token, res, ty)?;
        self.analyze_arguments(table, token, i, run)
    }

    #[tactic(auto, unfolding(crate::specs::Symbols::opened, crate::specs::Typing::type_call_into_d, crate::specs::Typing::then_global))]
    pub(crate) fn analyze_call_into(
        self,
        table: &mut [u32],
        token: usize,
        res: Identifier,
        ty: u32,
        callee: Identifier,
        run: Arguments,
    ) -> Result<(), Refusal>
        ensures { typed table.new result
            ≡ type_call_into_d table.old (globals_in self.entry.rows.now self.entry.functions callee.0) token res ty
            callee (variables_at self.entry.arguments.now run.first run.count) }
    {
        let i = self.find_callee(token, callee)?;
        let ret = result_type(self.rows, i);
        if ret == types::VOID {
            return Err(parser::refuse(numbers::VOID_VALUE, token));
        }
        symbols::expect_type(token, ty, ret)?;
        self.enter_result(table, token, i, res, ty, run)
    }
}

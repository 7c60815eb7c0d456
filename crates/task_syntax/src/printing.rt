ghost use Rattle.std.specs.Prelude.{◌≡◌, ◌≤◌, ◌<◌, ℕ, List, [], ◌∷◌, length, IfOk, IfErr, IsErrOf};
ghost use Rattle.std.specs.List.{flat_map};
ghost use Rattle.task_tokens.specs.declared.kinds.TokenKind.TheVariants.{Ident, Keyword, Numeral, Infix, Mark};
ghost use Rattle.task_syntax.specs.Printed.{operand_kinds, expr_kinds, let_kinds, further_kinds, argument_kinds, parameter_kinds, call_end, send_kinds, given_kinds, use_kinds, next_kinds, end_kinds, block_kinds, thread_line, printed};
ghost use Rattle.task_syntax.specs.PrintSteps.{Adds, Prints};
ghost use Rattle.task_syntax.specs.PrintedBack.{ReadsBack};
ghost use Rattle.task_tree.specs.declared.tree.Program.{Program};
ghost use Rattle.task_tree.specs.Equal.{EqualProgram};

use crate::error::PrintError;
use crate::parsing::LONGEST_TEXT;
use std::alloc::Global;
use std::marker::Model;
use task_tokens::{Operator, Sign, Word};
use task_tree::{Argument, Block, End, Expr, Given, Let, Name, Program, Thread, Use};

/// A program's text in one form: each thread on a line that ends with LF, one blank between any two
/// tokens, in parentheses each operand that is itself an operation and nothing else, numbers in
/// decimal without leading zeros. An empty program is the empty text. `TooLong` comes exactly where
/// that text is over 65,536 bytes, LFs among them, and memory suffices; `Memory` only when out of
/// memory. What no text has, as a number below 0, is written as it stands. A program that was read
/// is printed as a text that is read as the same program but for offsets.
pub fn print(alloc: Global, program: &Program) -> Result<Vec<u8>, PrintError>
    ensures written { IfOk result (λ v. v.items ≡ printed program.now) }
    ensures short { IfOk result (λ v. length v.items ≤ 65536) }
    ensures too_long { IsErrOf result PrintError.TooLong → 65536 < length (printed program.now) }
    ensures reads_back { IfOk result (λ v. ReadsBack program.now v.items) }
{
    let mut out = Output::new(alloc);
    print_threads(&mut out, program.threads.as_slice());
    out.finish()
}

/// Programs that are the same but for where their parts lie in memory are printed alike. Does
/// nothing.
pub fn equal_programs_print_alike()
    ensures { (p q : Program) → EqualProgram p q → printed p ≡ printed q }
{}

/// Printed text, of at most `LONGEST_TEXT` bytes. Once it would be longer, or there is no memory,
/// nothing more is written. Contracts see its bytes, or why there are none.
#[derive(Drop)]
struct Output {
    alloc: Global,
    text: Vec<u8>,
    refused: Option<PrintError>,
}

impl Model for Output {
    ghost use Rattle.task_syntax.specs.PrintSteps.{Text, text_of};

    ghost Value = { Text };

    ghost view = { λ o. text_of o.refused o.text.items };

    ghost use Rattle.std.specs.Prelude.{◌≤◌, length};

    ghost invariant = { λ o. length o.text.items ≤ 65536 };
}

impl Output {
    fn new(alloc: Global) -> Output
        ensures { result ≡ Ok [] }
    {
        Output {
            alloc,
            text: Vec::new(alloc),
            refused: None,
        }
    }

    fn finish(self) -> Result<Vec<u8>, PrintError>
        ensures text { IfOk result (λ v. self ≡ Ok v.items) }
        ensures short { IfOk result (λ v. length v.items ≤ 65536) }
        ensures refused { IfErr result (λ e. self ≡ Err e) }
    {
        match self.refused {
            None => Ok(self.text),
            Some(e) => Err(e),
        }
    }

    fn bytes(&mut self, bytes: &[u8])
        ensures { Adds self.old self.new bytes.now }
    {
        if self.refused.is_some() {
            return;
        }
        if bytes.len() > LONGEST_TEXT - self.text.len() {
            self.refused = Some(PrintError::TooLong);
        } else if self.text.extend_from_slice(bytes).is_err() {
            self.refused = Some(PrintError::Memory);
        }
    }

    /// A token behind another of its line.
    fn token(&mut self, bytes: &[u8])
        ensures { Adds self.old self.new (32 ∷ bytes.now) }
    {
        self.bytes(b" ");
        self.bytes(bytes);
    }

    fn word(&mut self, word: Word)
        ensures { Prints self.old self.new (Keyword word ∷ []) }
    {
        self.token(match word {
            Word::Thread => b"thread".as_slice(),
            Word::Let => b"let".as_slice(),
            Word::If => b"if".as_slice(),
            Word::Else => b"else".as_slice(),
            Word::Spawn => b"spawn".as_slice(),
            Word::SpawnNext => b"spawn_next".as_slice(),
            Word::SendArgument => b"send_argument".as_slice(),
        });
    }

    fn mark(&mut self, sign: Sign)
        ensures { Prints self.old self.new (Mark sign ∷ []) }
    {
        self.token(match sign {
            Sign::Open => b"(".as_slice(),
            Sign::Close => b")".as_slice(),
            Sign::OpenBrace => b"{".as_slice(),
            Sign::CloseBrace => b"}".as_slice(),
            Sign::Comma => b",".as_slice(),
            Sign::Semicolon => b";".as_slice(),
            Sign::Question => b"?".as_slice(),
            Sign::Assign => b"=".as_slice(),
        });
    }

    fn infix(&mut self, operator: Operator)
        ensures { Prints self.old self.new (Infix operator ∷ []) }
    {
        self.token(match operator {
            Operator::Or => b"|".as_slice(),
            Operator::Xor => b"^".as_slice(),
            Operator::And => b"&".as_slice(),
            Operator::Equal => b"==".as_slice(),
            Operator::NotEqual => b"!=".as_slice(),
            Operator::Less => b"<".as_slice(),
            Operator::AtMost => b"<=".as_slice(),
            Operator::ShiftLeft => b"<<".as_slice(),
            Operator::ShiftRight => b">>".as_slice(),
            Operator::Add => b"+".as_slice(),
            Operator::Subtract => b"-".as_slice(),
            Operator::Multiply => b"*".as_slice(),
            Operator::Divide => b"/".as_slice(),
            Operator::Remainder => b"%".as_slice(),
        });
    }

    fn name(&mut self, name: &Name)
        ensures { Prints self.old self.new (Ident name.now.text ∷ []) }
    {
        self.token(name.text.as_slice());
    }

    fn numeral(&mut self, n: i64)
        ensures { Prints self.old self.new (Numeral n ∷ []) }
    {
        match n.to_string(self.alloc) {
            Ok(digits) => self.token(digits.as_bytes()),
            Err(_) => self.refuse_memory(),
        }
    }

    /// Nothing more is written, unless that is so already.
    fn refuse_memory(&mut self)
        ensures { (more : List ℕ) → Adds self.old self.new more }
    {
        if self.refused.is_none() {
            self.refused = Some(PrintError::Memory);
        }
    }
}

/// An operand: in parentheses, if it is an operation.
fn print_operand(out: &mut Output, e: &Expr)
    ensures { Prints out.old out.new (operand_kinds e.now) }
{
    match e {
        Expr::Number(n) => out.numeral(*n),
        Expr::Variable(name) => out.name(name),
        Expr::Binary(operator, left, right) => {
            out.mark(Sign::Open);
            print_operand(out, left);
            out.infix(*operator);
            print_operand(out, right);
            out.mark(Sign::Close);
        }
    }
}

/// A whole expression, in no parentheses of its own.
fn print_expr(out: &mut Output, e: &Expr)
    ensures { Prints out.old out.new (expr_kinds e.now) }
{
    match e {
        Expr::Binary(operator, left, right) => {
            print_operand(out, left);
            out.infix(*operator);
            print_operand(out, right);
        }
        Expr::Number(n) => out.numeral(*n),
        Expr::Variable(name) => out.name(name),
    }
}

/// `let name = value ;`
fn print_let(out: &mut Output, bound: &Let)
    ensures { Prints out.old out.new (let_kinds bound.now) }
{
    out.word(Word::Let);
    out.name(&bound.name);
    out.mark(Sign::Assign);
    print_expr(out, &bound.value);
    out.mark(Sign::Semicolon);
}

/// `) ;`
fn close_call(out: &mut Output)
    ensures { Prints out.old out.new call_end }
{
    out.mark(Sign::Close);
    out.mark(Sign::Semicolon);
}

/// `send_argument ( hole , value ) ;`
fn print_send(out: &mut Output, hole: &Name, value: &Expr)
    ensures { Prints out.old out.new (send_kinds hole.now value.now) }
{
    out.word(Word::SendArgument);
    out.mark(Sign::Open);
    out.name(hole);
    out.mark(Sign::Comma);
    print_expr(out, value);
    close_call(out);
}

/// `, value` for each.
fn print_values(out: &mut Output, values: &[Expr])
    ensures { Prints out.old out.new (flat_map further_kinds values.now) }
{
    for value in values {
        out.mark(Sign::Comma);
        print_expr(out, value);
    }
}

/// `spawn thread ( hole {, value } ) ;`
fn print_spawn(out: &mut Output, thread: &Name, hole: &Name, values: &[Expr])
    ensures { Prints out.old out.new (given_kinds hole.now (Given.Spawned thread.now values.now)) }
{
    out.word(Word::Spawn);
    out.name(thread);
    out.mark(Sign::Open);
    out.name(hole);
    print_values(out, values);
    close_call(out);
}

fn print_use(out: &mut Output, used: &Use)
    ensures { Prints out.old out.new (use_kinds used.now) }
{
    match &used.given {
        Given::Sent(value) => print_send(out, &used.hole, value),
        Given::Spawned(thread, values) => print_spawn(out, thread, &used.hole, values.as_slice()),
    }
}

/// `, ? name`, or `, value`.
fn print_argument(out: &mut Output, argument: &Argument)
    ensures { Prints out.old out.new (argument_kinds argument.now) }
{
    out.mark(Sign::Comma);
    match argument {
        Argument::Value(value) => print_expr(out, value),
        Argument::Hole(name) => {
            out.mark(Sign::Question);
            out.name(name);
        }
    }
}

fn print_arguments(out: &mut Output, arguments: &[Argument])
    ensures { Prints out.old out.new (flat_map argument_kinds arguments.now) }
{
    for argument in arguments {
        print_argument(out, argument);
    }
}

/// `spawn_next thread ( continuation {, argument } ) ;`
fn print_next(out: &mut Output, thread: &Name, continuation: &Name, arguments: &[Argument])
    ensures { Prints out.old out.new (next_kinds thread.now continuation.now arguments.now) }
{
    out.word(Word::SpawnNext);
    out.name(thread);
    out.mark(Sign::Open);
    out.name(continuation);
    print_arguments(out, arguments);
    close_call(out);
}

fn print_lets(out: &mut Output, lets: &[Let])
    ensures { Prints out.old out.new (flat_map let_kinds lets.now) }
{
    for bound in lets {
        print_let(out, bound);
    }
}

fn print_uses(out: &mut Output, uses: &[Use])
    ensures { Prints out.old out.new (flat_map use_kinds uses.now) }
{
    for used in uses {
        print_use(out, used);
    }
}

/// How a block ends, between its lets and its closing brace.
#[cycle(block)]
fn print_end(out: &mut Output, end: &End)
    ensures { Prints out.old out.new (end_kinds end.now) }
{
    match end {
        End::If(condition, then, otherwise) => {
            out.word(Word::If);
            print_expr(out, condition);
            print_block(out, then);
            out.word(Word::Else);
            print_block(out, otherwise);
        }
        End::Send(hole, value) => print_send(out, hole, value),
        End::Next(thread, continuation, arguments, uses) => {
            print_next(out, thread, continuation, arguments.as_slice());
            print_uses(out, uses.as_slice());
        }
    }
}

/// `{ lets end }`
#[cycle(block)]
fn print_block(out: &mut Output, block: &Block)
    ensures { Prints out.old out.new (block_kinds block.now) }
{
    out.mark(Sign::OpenBrace);
    print_lets(out, block.lets.as_slice());
    print_end(out, &block.end);
    out.mark(Sign::CloseBrace);
}

/// `, name` for each.
fn print_numbers(out: &mut Output, numbers: &[Name])
    ensures { Prints out.old out.new (flat_map parameter_kinds numbers.now) }
{
    for number in numbers {
        out.mark(Sign::Comma);
        out.name(number);
    }
}

/// `thread name ( continuation {, name } ) block` and LF; the word stands first in its line.
fn print_thread(out: &mut Output, thread: &Thread)
    ensures { Adds out.old out.new (thread_line thread.now) }
{
    out.bytes(b"thread");
    out.name(&thread.name);
    out.mark(Sign::Open);
    out.name(&thread.continuation);
    print_numbers(out, thread.numbers.as_slice());
    out.mark(Sign::Close);
    print_block(out, &thread.body);
    out.bytes(b"\n");
}

fn print_threads(out: &mut Output, threads: &[Thread])
    ensures { Adds out.old out.new (flat_map thread_line threads.now) }
{
    for thread in threads {
        print_thread(out, thread);
    }
}

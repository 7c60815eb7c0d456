//! The tree of a program in words: names with their offsets, operations by their names, blocks with
//! the offsets of their closing braces.

use ids::Listed;
use play_words::Answers;
use task_tree::{Argument, Block, End, Expr, Given, Name, Program, Use};

pub fn write_name(out: &mut Answers, name: &[u8]) {
    for byte in name {
        out.character(*byte);
    }
}

/// Writes the trees of all threads, and the length of the text.
pub fn write_program(out: &mut Answers, program: &Program) {
    for thread in program.threads.as_slice() {
        write_at(out, &thread.name);
        write_at(out, &thread.continuation);
        for number in thread.numbers.as_slice() {
            write_at(out, number);
        }
        write_block(out, &thread.body);
    }
    out.shown(&program.length);
}

fn write_at(out: &mut Answers, name: &Name) {
    write_name(out, name.text.as_slice());
    out.text("@");
    out.shown(&name.offset);
    out.text(" ");
}

fn write_expr(out: &mut Answers, expr: &Expr) {
    match expr {
        Expr::Number(number) => {
            out.shown(number);
            out.text(" ");
        }
        Expr::Variable(name) => write_at(out, name),
        Expr::Binary(operator, left, right) => {
            out.debugged(operator);
            out.text("( ");
            write_expr(out, left);
            write_expr(out, right);
            out.text(") ");
        }
    }
}

fn write_block(out: &mut Answers, block: &Block) {
    out.text("{ ");
    for each in block.lets.as_slice() {
        write_at(out, &each.name);
        write_expr(out, &each.value);
    }
    match &block.end {
        End::If(condition, first, second) => {
            write_expr(out, condition);
            write_block(out, first);
            write_block(out, second);
        }
        End::Send(continuation, sent) => {
            write_at(out, continuation);
            write_expr(out, sent);
        }
        End::Next(thread, continuation, arguments, uses) => {
            write_at(out, thread);
            write_at(out, continuation);
            write_arguments(out, arguments);
            write_uses(out, uses);
        }
    }
    out.text("}@");
    out.shown(&block.close);
    out.text(" ");
}

fn write_arguments(out: &mut Answers, arguments: &Listed<Argument>) {
    for argument in arguments.as_slice() {
        match argument {
            Argument::Value(value) => write_expr(out, value),
            Argument::Hole(name) => {
                out.text("?");
                write_at(out, name);
            }
        }
    }
}

fn write_uses(out: &mut Answers, uses: &Listed<Use>) {
    for each in uses.as_slice() {
        write_at(out, &each.hole);
        match &each.given {
            Given::Sent(value) => write_expr(out, value),
            Given::Spawned(thread, arguments) => {
                out.text("spawn ");
                write_at(out, thread);
                for value in arguments.as_slice() {
                    write_expr(out, value);
                }
            }
        }
    }
}

// A syscall's number and arguments.
ghost use Rattle.std.specs.Prelude.{◌≡◌};
ghost use Rattle.machine_defs.specs.SyscallTable as table;
ghost use Rattle.machine_defs.specs.Answer.{asks};
ghost use Rattle.vm_sys.specs.Actions.{form_meaning, meaning_of_any};

use std::marker::Model;
use vm_step::Machine;

/// The registers of a syscall: its arguments, its result in the first of them, and its number.
pub(crate) const A0: u8 = 10;

pub(crate) const A1: u8 = 11;

pub(crate) const A2: u8 = 12;

pub(crate) const A3: u8 = 13;

const A4: u8 = 14;

const A5: u8 = 15;

pub(crate) const A7: u8 = 17;

/// What a syscall asks for. Where it asks for no field, that is 0.
#[derive(Clone, Copy, Debug, PartialEq, Eq)]
pub struct Call {
    pub number: u64,
    pub index: u64,
    pub source: u64,
    pub field: u64,
}

impl Model for Call {
    ghost use Rattle.machine_defs.specs.World as world;

    ghost Value = { world.Call };

    ghost view = { λ call. record { number = call.number; index = call.index; source = call.source; field = call.field } };

    ghost inverse = { λ call. record { number = call.number; index = call.index; source = call.source; field = call.field } };
}

/// How an item is loaded.
#[derive(Clone, Copy, Debug, PartialEq, Eq)]
pub(crate) enum Form {
    Part,
    Field,
    Code,
}

/// What a syscall does.
#[derive(Clone, Copy, Debug, PartialEq, Eq)]
pub(crate) enum Action {
    Exits,
    Debugs,
    Loads(Form),
}

/// What the syscall of a number does (RFC 0009).
#[tactic(auto, unfolding(machine_defs::specs::SyscallTable::action_of, machine_defs::specs::SyscallTable::syscalls))]
pub(crate) fn action_of(number: u64) -> Option<Action>
    ensures { meaning_of_any result ≡ table.action_of number }
{
    match number {
        93 => Some(Action::Exits),
        2051 => Some(Action::Loads(Form::Part)),
        2052 => Some(Action::Loads(Form::Part)),
        2061 => Some(Action::Loads(Form::Part)),
        2062 => Some(Action::Loads(Form::Part)),
        2071 => Some(Action::Loads(Form::Part)),
        2072 => Some(Action::Loads(Form::Part)),
        2073 => Some(Action::Loads(Form::Part)),
        2074 => Some(Action::Loads(Form::Part)),
        2081 => Some(Action::Loads(Form::Field)),
        2082 => Some(Action::Loads(Form::Field)),
        2083 => Some(Action::Loads(Form::Field)),
        2091 => Some(Action::Loads(Form::Code)),
        2092 => Some(Action::Loads(Form::Part)),
        2177 => Some(Action::Debugs),
        _ => None,
    }
}

/// What a syscall that loads asks for.
pub(crate) fn asked(machine: &Machine, form: Form) -> Call
    ensures { result ≡ asks machine.now.machine (form_meaning form) }
{
    let number = machine.reg(A7);
    let third = machine.reg(A3);
    let fourth = machine.reg(A4);
    let fifth = machine.reg(A5);
    match form {
        Form::Part => Call {
            number,
            index: third,
            source: fourth,
            field: 0,
        },
        Form::Field => Call {
            number,
            index: third,
            source: fourth,
            field: fifth,
        },
        Form::Code => Call {
            number,
            index: fourth,
            source: fifth,
            field: 0,
        },
    }
}

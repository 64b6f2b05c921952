// The arguments that a program is given, one at a time. No contract can say what they are.
#![tactic(auto)]

ghost use Rattle.std.specs.Prelude.{◌≤◌, length, IfSome, IsNone};
ghost use Rattle.arguments.specs.Numbers.{AllNumbers, NotAllNumbers};

use std::env::{Env, FillError};

// The room of an argument: more than any word or number that is taken. One that is missing or longer is read as no bytes at all.
pub const ARGUMENT: usize = 16;

// How many arguments there are, the program's name among them.
pub fn count(rt: &impl Env) -> usize {
    (0..usize::MAX)
        .find(|&i| matches!(rt.arg(i, &mut []), Err(FillError::NotPresent)))
        .unwrap_or(usize::MAX)
}

// Reads an argument into the room, and gives its bytes.
pub fn read<'a>(rt: &impl Env, i: usize, room: &'a mut [u8; ARGUMENT]) -> &'a [u8]
    ensures { length result.now ≤ 16 }
{
    let length = rt.arg(i, room).unwrap_or(0);
    &room[..length]
}

// The number that an argument is, if it is one.
pub fn number(rt: &impl Env, i: usize) -> Option<u32> {
    parser::number(read(rt, i, &mut [0; ARGUMENT]))
}

// The numbers that the arguments behind the program's name are, if there are so many of them and each is one.
pub fn numbers<const N: usize, F: Fn(usize) -> Option<u32>>(
    count: usize,
    number: F,
) -> Option<[u32; N]>
    requires { F.IsAlwaysCallable number }
    ensures some { IfSome result (AllNumbers (F.post number) N count) }
    ensures none { IsNone result → NotAllNumbers (F.post number) N count }
{
    if count.checked_sub(1) != Some(N) {
        return None;
    }
    let mut numbers = [0; N];
    for i in 0..N {
        numbers[i] = number(i + 1)?;
    }
    Some(numbers)
}

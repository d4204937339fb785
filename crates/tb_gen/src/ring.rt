//! The script of a ring of processes.

ghost use Rattle.std.specs.Prelude.{◌≡◌, ◌≤◌, ◌*◌, ◌+◌, ◌-◌, ◌++◌, length, OnOk, IfOk};
ghost use Rattle.std.specs.Fmt.{decimal};
ghost use Rattle.tb_gen.specs.Ring.{ring_text, node_line, first_line, toolbus_line, node, later, nodes_text};

use itoa::Buffer;
use std::alloc::Global;
use tb_terms::NoMemory;

const NODE: &[u8] =
    b"process Node(I : int, J : int) is let T : int in (rec-msg(I, T?) . snd-msg(J, add(T, 1))) * delta endlet\n";

const BEFORE_LIMIT: &[u8] =
    b"process First is let T : int in snd-msg(2, 1) . (rec-msg(1, T?) . if less(T, ";

const BEHIND_LIMIT: &[u8] =
    b") then snd-msg(2, add(T, 1)) else shutdown(done) fi) * delta endlet\n";

/// Returns the script of a ring of `n` processes, round which a message goes `k` times. Each message carries the number of messages
/// so far. When the first process receives number `n * k`, it shuts the bus down. Fails only if memory runs out.
#[tactic(auto, using(crate::proofs::Lengths::ring_short))]
pub fn ring_script(alloc: Global, n: u32, k: u32) -> Result<Vec<u8>, NoMemory>
    requires processes { (2 ≤ n) × (n ≤ 10000) }
    requires messages { (1 ≤ k) × (n * k ≤ 1000000) }
    ensures is { IfOk result (λ script. script.items ≡ ring_text n k) }
    ensures short { IfOk result (λ script. length script.items ≤ 1048576) }
{
    let mut script = Vec::new(alloc);
    push_text(NODE, &mut script)?;
    push_first(n * k, &mut script)?;
    push_toolbus(n, &mut script)?;
    Ok(script)
}

/// Adds the definition of the first process, which shuts the bus down after this many messages.
fn push_first(messages: u32, into: &mut Vec<u8>) -> Result<(), NoMemory>
    ensures { OnOk result (into.new.items ≡ into.old.items ++ first_line messages) }
{
    push_text(BEFORE_LIMIT, into)?;
    push_number(messages, into)?;
    push_text(BEHIND_LIMIT, into)?;
    Ok(())
}

/// Adds the calls with which the bus starts.
fn push_toolbus(n: u32, into: &mut Vec<u8>) -> Result<(), NoMemory>
    requires { (2 ≤ n) × (n ≤ 10000) }
    ensures { OnOk result (into.new.items ≡ into.old.items ++ toolbus_line n) }
{
    push_text(b"toolbus(First", into)?;
    push_nodes(n, into)?;
    push_later(n, 1, into)?;
    push_text(b")\n", into)?;
    Ok(())
}

/// Adds the processes from the second to the last but one. Each sends to the next.
fn push_nodes(n: u32, into: &mut Vec<u8>) -> Result<(), NoMemory>
    requires { (2 ≤ n) × (n ≤ 10000) }
    ensures { OnOk result (into.new.items ≡ into.old.items ++ nodes_text 2 (n - 2)) }
{
    let mut process = 2;
    while process < n {
        push_later(process, process + 1, into)?;
        process += 1;
    }
    Ok(())
}

/// Adds a process after another one. It sends to the process with the number `next`.
fn push_later(process: u32, next: u32, into: &mut Vec<u8>) -> Result<(), NoMemory>
    ensures { OnOk result (into.new.items ≡ into.old.items ++ later (node process next)) }
{
    push_text(b", Node(", into)?;
    push_number(process, into)?;
    push_text(b", ", into)?;
    push_number(next, into)?;
    push_text(b")", into)?;
    Ok(())
}

fn push_number(number: u32, into: &mut Vec<u8>) -> Result<(), NoMemory>
    ensures { OnOk result (into.new.items ≡ into.old.items ++ decimal number) }
{
    let mut buffer = Buffer::new();
    push_text(buffer.format(number).as_bytes(), into)
}

fn push_text(text: &[u8], into: &mut Vec<u8>) -> Result<(), NoMemory>
    ensures { OnOk result (into.new.items ≡ into.old.items ++ text.now) }
{
    into.extend_from_slice(text)?;
    Ok(())
}

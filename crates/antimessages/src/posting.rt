//! Makes room for letters at their receivers, and puts the letters there.
ghost use Rattle.std.specs.Prelude.{◌≡◌, ◌↔◌, ℕ, true, false, cond, [], ◌∷◌, ◌+◌, ◌<◌, ◌≤◌, ◌==◌, ◌++◌, length, map, filter, All, IsTrue, IsOk, OnOk, OnErr};
ghost use Rattle.std.specs.VecDeque.{deque_len, deque_capacity};
ghost use Rattle.virtual_time.specs.Law.{received_by};
ghost use Rattle.vlink.specs.Order.{message_order};
ghost use Rattle.antimessages.specs.Mailing.{letters_for, room_for, HasRoom, store_of};

use crate::fault::OutOfMemory;
use std::collections::VecDeque;
use vlink::Letter;

/// Makes room in the mail of each receiver for all letters that it receives. It searches the letters once for each letter, or once for each
/// process if that is less.
pub(crate) fn reserve_all(
    boxes: &mut Vec<VecDeque<Letter>>,
    letters: &[Letter],
) -> Result<(), OutOfMemory>
    requires { All (λ letter. letter.message.receiver < length boxes.old.items) letters.now }
    ensures same { (p : ℕ) → letters_for p (map store_of boxes.new.items) ≡ letters_for p (map store_of boxes.old.items) }
    ensures processes { length boxes.new.items ≡ length boxes.old.items }
    ensures room { OnOk result (HasRoom (map store_of boxes.new.items) letters.now) }
    ensures no_less { (p : ℕ) → room_for p (map store_of boxes.old.items) ≤ room_for p (map store_of boxes.new.items) }
    ensures reserved { HasRoom (map store_of boxes.old.items) letters.now → IsOk result }
{
    if letters.len() <= boxes.len() {
        reserve_by_letters(boxes, letters)
    } else {
        reserve_by_receivers(boxes, letters)
    }
}

/// Does the same, process by process.
fn reserve_by_receivers(
    boxes: &mut Vec<VecDeque<Letter>>,
    letters: &[Letter],
) -> Result<(), OutOfMemory>
    requires { All (λ letter. letter.message.receiver < length boxes.old.items) letters.now }
    ensures same { (p : ℕ) → letters_for p (map store_of boxes.new.items) ≡ letters_for p (map store_of boxes.old.items) }
    ensures processes { length boxes.new.items ≡ length boxes.old.items }
    ensures room { OnOk result (HasRoom (map store_of boxes.new.items) letters.now) }
    ensures no_less { (p : ℕ) → room_for p (map store_of boxes.old.items) ≤ room_for p (map store_of boxes.new.items) }
    ensures reserved { HasRoom (map store_of boxes.old.items) letters.now → IsOk result }
{
    for receiver in 0..boxes.len() {
        make_room(&mut boxes[receiver], letters, receiver)?;
    }
    Ok(())
}

/// Does the same, letter by letter.
fn reserve_by_letters(
    boxes: &mut Vec<VecDeque<Letter>>,
    letters: &[Letter],
) -> Result<(), OutOfMemory>
    requires { All (λ letter. letter.message.receiver < length boxes.old.items) letters.now }
    ensures same { (p : ℕ) → letters_for p (map store_of boxes.new.items) ≡ letters_for p (map store_of boxes.old.items) }
    ensures processes { length boxes.new.items ≡ length boxes.old.items }
    ensures room { OnOk result (HasRoom (map store_of boxes.new.items) letters.now) }
    ensures no_less { (p : ℕ) → room_for p (map store_of boxes.old.items) ≤ room_for p (map store_of boxes.new.items) }
    ensures reserved { HasRoom (map store_of boxes.old.items) letters.now → IsOk result }
{
    for letter in letters {
        let receiver = usize::from(letter.message.receiver);
        make_room(&mut boxes[receiver], letters, receiver)?;
    }
    Ok(())
}

/// Makes room in the mail of one receiver for its share of the letters. It counts them only if the room might not suffice.
fn make_room(
    mailbox: &mut VecDeque<Letter>,
    letters: &[Letter],
    receiver: usize,
) -> Result<(), OutOfMemory>
    ensures items { mailbox.new.items ≡ mailbox.old.items }
    ensures len { deque_len mailbox.new ≡ deque_len mailbox.old }
    ensures capacity { deque_capacity mailbox.old ≤ deque_capacity mailbox.new }
    ensures ok { OnOk result (deque_len mailbox.new + length (filter (λ letter. letter.message.receiver == receiver) letters.now) ≤ deque_capacity mailbox.new) }
    ensures full { OnErr result (deque_capacity mailbox.old < deque_len mailbox.old + length (filter (λ letter. letter.message.receiver == receiver) letters.now)) }
{
    if letters.len() <= mailbox.capacity() - mailbox.len() {
        return Ok(());
    }
    mailbox.reserve(count_for(letters, receiver))?;
    Ok(())
}

/// Returns how many of the letters this process receives.
fn count_for(letters: &[Letter], receiver: usize) -> usize
    ensures { result ≡ length (filter (λ letter. letter.message.receiver == receiver) letters.now) }
{
    let mut count = 0;
    for place in 0..letters.len() {
        count += one_for(&letters[place], receiver);
    }
    count
}

/// Returns 1 if this process receives the letter, and otherwise 0.
fn one_for(letter: &Letter, receiver: usize) -> usize
    ensures one { result ≡ cond (letter.now.message.receiver == receiver) 1 0 }
    ensures most { result ≤ 1 }
{
    if usize::from(letter.message.receiver) == receiver {
        1
    } else {
        0
    }
}

/// Whether each of the letters is for one of the processes 0 to `processes` - 1.
pub(crate) fn are_within(letters: &[Letter], processes: usize) -> bool
    ensures { IsTrue result ↔ All (λ letter. letter.message.receiver < processes) letters.now }
{
    for place in 0..letters.len() {
        if !is_within(&letters[place], processes) {
            return false;
        }
    }
    true
}

/// Whether the letter is for one of the processes 0 to `processes` - 1.
fn is_within(letter: &Letter, processes: usize) -> bool
    ensures yes { result ≡ true → letter.now.message.receiver < processes }
    ensures no { result ≡ false → processes ≤ letter.now.message.receiver }
{
    usize::from(letter.message.receiver) < processes
}

/// Puts each letter, in order, at the back of the mail of its receiver. The room for all was made before.
pub(crate) fn put_all(boxes: &mut Vec<VecDeque<Letter>>, letters: &[Letter])
    requires receivers { All (λ letter. letter.message.receiver < length boxes.old.items) letters.now }
    requires room { HasRoom (map store_of boxes.old.items) letters.now }
    ensures put { (p : ℕ) → letters_for p (map store_of boxes.new.items)
        ≡ letters_for p (map store_of boxes.old.items) ++ received_by message_order p letters.now }
    ensures processes { length boxes.new.items ≡ length boxes.old.items }
{
    for letter in letters {
        boxes[usize::from(letter.message.receiver)].push_back_reserved(*letter);
    }
}

/// Puts each letter, in order, at the back of the mail of its receiver, and makes the room for it. Unlike `reserve_all` and `put_all`, its
/// time is proportional to the number of letters; but a refusal leaves some of the letters there.
pub(crate) fn push_all(
    boxes: &mut Vec<VecDeque<Letter>>,
    letters: &[Letter],
) -> Result<(), OutOfMemory>
    requires { All (λ letter. letter.message.receiver < length boxes.old.items) letters.now }
    ensures put { OnOk result ((p : ℕ) → letters_for p (map store_of boxes.new.items)
        ≡ letters_for p (map store_of boxes.old.items) ++ received_by message_order p letters.now) }
    ensures processes { length boxes.new.items ≡ length boxes.old.items }
    ensures none { letters.now ≡ [] → IsOk result }
{
    for letter in letters {
        push(&mut boxes[usize::from(letter.message.receiver)], *letter)?;
    }
    Ok(())
}

/// Puts the item at the back of the queue.
fn push<T: Copy>(queue: &mut VecDeque<T>, item: T) -> Result<(), OutOfMemory>
    ensures { OnOk result (queue.new.items ≡ queue.old.items ++ item ∷ []) }
{
    queue.reserve(1)?;
    queue.push_back_reserved(item);
    Ok(())
}

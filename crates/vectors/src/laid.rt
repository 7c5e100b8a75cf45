// What a lent slice holds after a call: something in front, and behind it what it held before.
use refusals::CodecFault;

/// Whether the slice begins with `front`, and holds `spare` everywhere behind it.
pub(crate) fn is_laid<T: PartialEq + Copy>(out: &[T], front: &[T], spare: T) -> bool {
    out.starts_with(front) && out[front.len()..].iter().all(|found| *found == spare)
}

/// Whether a call that was to lay `front` into so much room answered so: with its length where it fits, and for want of
/// space where it doesn't, and then laid nothing. Before the call the slice held `spare` everywhere.
pub(crate) fn is_laid_in<T: PartialEq + Copy>(
    answer: Result<usize, CodecFault>,
    out: &[T],
    front: &[T],
    spare: T,
    room: usize,
) -> bool {
    match answer {
        Ok(len) => len == front.len() && len <= room && is_laid(out, front, spare),
        Err(CodecFault::NoSpace) => room < front.len() && is_laid(out, &[], spare),
        Err(_) => false,
    }
}

// The calls of a disk, as lines name them.
use qg_disk::{Call, Request};
use std::alloc::{AllocError, Global};

/// The text of a call.
pub(crate) fn call_text(alloc: Global, call: &Call) -> Result<String, AllocError> {
    let end = if call.failed { " fails" } else { "" };
    let text = match &call.request {
        Request::Read { at, count } => format!(in alloc; "read {at} {count}{end}")?,
        Request::Write { at, bytes } => {
            let count = bytes.as_slice().len();
            format!(in alloc; "write {at} {count}{end}")?
        }
        Request::Cut { len } => format!(in alloc; "cut {len}{end}")?,
        Request::Sync => format!(in alloc; "sync{end}")?,
    };
    Ok(text)
}

/// The texts of these calls, in order, and of those that read only where they are wanted.
pub(crate) fn call_texts(
    alloc: Global,
    calls: &[Call],
    has_reads: bool,
) -> Result<Vec<String>, AllocError> {
    let mut texts = Vec::new(alloc);
    for call in calls {
        let text = call_text(alloc, call)?;
        if has_reads || !is_read(text.as_str()) {
            texts.push(text)?;
        }
    }
    Ok(texts)
}

/// Whether a call's text is that of one that reads.
pub(crate) fn is_read(text: &str) -> bool {
    text.starts_with("read ")
}

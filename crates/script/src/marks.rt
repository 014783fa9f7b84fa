// The marks of a service.
ghost use Rattle.std.specs.Prelude.{◌≡◌, []};
ghost use Rattle.script.specs.Services.{with_mark, marks_from, marks_after};

use crate::parts::split_once;
use lines::is_word;
use station::Service;

// With one mark more, which stands there once at most. By tests: of a `match` on the words the proof did not close.
fn with_mark(service: Service, word: &[u8]) -> Option<Service>
    ensures value { result ≡ with_mark service word.now }
{
    if is_word(word, b"controlled") && !service.controlled {
        Some(Service {
            controlled: true,
            ..service
        })
    } else if is_word(word, b"paid") && !service.paid {
        Some(Service {
            paid: true,
            ..service
        })
    } else if is_word(word, b"apart") && !service.apart {
        Some(Service {
            apart: true,
            ..service
        })
    } else {
        None
    }
}

// With the marks that a text names, with commas between them. Tried `try_fold` over `split`: the proof did not close.
fn with_marks(mut service: Service, text: &[u8]) -> Option<Service>
    ensures value { result ≡ marks_from service [] text.now }
{
    let mut rest = text;
    while let Some((word, more)) = split_once(rest, b',') {
        service = with_mark(service, word)?;
        rest = more;
    }
    with_mark(service, rest)
}

// With the marks that follow the first comma, if there is one.
pub(crate) fn with_marks_after(service: Service, text: &[u8]) -> Option<Service>
    ensures value { result ≡ marks_after text.now service }
{
    match split_once(text, b',') {
        Some((_, marks)) => with_marks(service, marks),
        None => Some(service),
    }
}

// The parts of a stream behind its dictionary.
ghost use Rattle.std.specs.Prelude.{◌≡◌, ◌<◌, ◌≤◌, length, IfOk};
ghost use Rattle.format.specs.Space.{eol_at};
ghost use Rattle.format.specs.Frames.{stream_line, maybe_eol, end_stream, stream_data};
ghost use Rattle.objects.specs.Steps.{placed, rest_of};

use faults::fault::Fault;
use faults::layer::Layer;
use faults::reason::Reason;
use lexer::bytes::is_regular;
use lexer::reader::Lexer;

// The end of line behind `stream`, LF or CR LF: the place behind it. A CR alone ends a line elsewhere and none here, so the bytes are asked themselves.
pub fn stream_line(at: Lexer<'_>) -> Result<usize, Fault>
    ensures is { placed at.entry.src.now result ≡ stream_line at.entry.place (rest_of at.entry) }
    ensures within { IfOk result (λ q. (at.entry.place < q) × (q ≤ length at.entry.src.now)) }
{
    let from = at.place;
    match &at.src[from..] {
        [] => Err(Fault::met(Reason::BytesEnd, Layer::Object, from)),
        [b'\n', ..] => Ok(from + 1),
        [b'\r'] => Err(Fault::met(Reason::BytesEnd, Layer::Object, from + 1)),
        [b'\r', b'\n', ..] => Ok(from + 2),
        _ => Err(Fault::met(Reason::BadFrame, Layer::Object, from)),
    }
}

// Behind an end of line, if one stands there.
fn skip_eol(at: Lexer<'_>) -> Lexer<'_>
    ensures is { maybe_eol at.entry.place (rest_of at.entry) (eol_at at.entry.place (rest_of at.entry)) ≡ (result.place, rest_of result) }
    ensures on { at.entry.place ≤ result.place }
    ensures src { result.src.now ≡ at.entry.src.now }
{
    at.to(at.line_end().unwrap_or(at.place))
}

// `endstream` as a whole word: the place behind it.
fn end_stream(at: Lexer<'_>) -> Result<usize, Fault>
    ensures is { placed at.entry.src.now result ≡ end_stream at.entry.place (rest_of at.entry) }
    ensures within { IfOk result (λ q. (at.entry.place < q) × (q ≤ length at.entry.src.now)) }
{
    let broken = Fault::met(Reason::BadFrame, Layer::Object, at.place);
    let rest = at.src[at.place..].strip_prefix(b"endstream").ok_or(broken)?;
    if rest.first().is_some_and(|b| is_regular(*b)) {
        return Err(broken);
    }
    Ok(at.place + 9)
}

// The data of a stream, an optional end of line and `endstream`: the place behind them.
pub fn stream_data(at: Lexer<'_>, len: usize) -> Result<usize, Fault>
    ensures is { placed at.entry.src.now result ≡ stream_data len at.entry.place (rest_of at.entry) }
    ensures within { IfOk result (λ q. (at.entry.place < q) × (q ≤ length at.entry.src.now)) }
{
    if len > at.src.len() - at.place {
        return Err(Fault::met(Reason::BytesEnd, Layer::Object, at.src.len()));
    }
    end_stream(skip_eol(at.to(at.place + len)))
}

// The answered line, or the complaint about a request.
use crate::call::answer_of;
use cmd_operations::answers::write_answers;
use cmd_operations::complaint::Complaint;
use cmd_operations::request::read_request;
use cmd_streams::output::Output;
use text_lines::{find_arrow, part};

// Answers the request in the line of which s is all or, where `is_long`, the first part. Nothing is written where it is no request.
pub fn write_reply<const N: usize>(
    out: &mut Output<N>,
    s: &[u8],
    is_long: bool,
) -> Result<(), Complaint> {
    let arrow = find_arrow(s);
    if is_long && arrow == s.len() {
        return Err(Complaint::TooLong);
    }
    let asked = part(s, 0, arrow);
    let request = read_request(asked);
    let operands = request.operands?;
    let row = request.row.ok_or(Complaint::Unknown)?;
    out.write_bytes(asked);
    write_answers(out, row, answer_of(row.number, operands));
    Ok(())
}

// Places 7 to 17 of document 01: the client and the other party of a trade.
#![tactic(auto)]

ghost use Rattle.std.specs.Prelude.{◌≡◌};
ghost use Rattle.client.specs.Client.{lacks_form, same_party, client_tests};

// Whether a field lacks the form that its kind asks.
#[tactic(auto, unfolding(crate::specs::Client::lacks_form))]
fn lacks_form(kind: &[u8], f: &[u8]) -> bool
    ensures { result ≡ lacks_form kind.now f.now }
{
    let k = fields::letter_of(kind);
    (k == b'B') & !identifier::is_bank_code(f)
        | (k == b'S') & !identifier::is_swift(f)
        | (k == b'N') & !identifier::is_name(f, 8)
}

// Whether two identifications of one kind are the same.
#[tactic(auto, using(text::proofs::SameLaws::eq_same), unfolding(crate::specs::Client::same_party))]
fn same_party(kind: &[u8], f: &[u8], g: &[u8]) -> bool
    ensures { result ≡ same_party kind.now f.now g.now }
{
    if fields::letter_of(kind) == b'S' {
        identifier::same_address(f, g)
    } else {
        f == g
    }
}

// Whether each of places 7 to 17 fails.
#[tactic(auto, using(text::proofs::SameLaws::eq_same), unfolding(crate::specs::Client::client_tests))]
pub fn judge(f3: &[u8], f4: &[u8], f5: &[u8], f6: &[u8]) -> [bool; 11]
    ensures { result ≡ client_tests f3.now f4.now f5.now f6.now }
{
    let k3 = fields::letter_of(f3);
    let k5 = fields::letter_of(f5);
    let blank3 = f3.is_empty();
    let blank4 = f4.is_empty();
    let blank5 = f5.is_empty();
    let blank6 = f6.is_empty();
    [
        blank3, // 7 0030
        !blank3 & !((k3 == b'B') | (k3 == b'S') | (k3 == b'N') | (k3 == b'I')), // 8 0031
        blank4, // 9 0040
        !blank4 & (k3 == b'B') & !identifier::is_bank_code(f4), // 10 0041
        !blank4 & (k3 == b'S') & !identifier::is_swift(f4), // 11 0042
        !blank4 & (k3 == b'N') & !identifier::is_name(f4, 8), // 12 0044
        !blank4 & (k3 == b'I') & (16 < f4.len()), // 13 9045
        !blank5 & !((k5 == b'B') | (k5 == b'S') | (k5 == b'N')), // 14 9051
        blank5 & !blank6 | !blank5 & blank6, // 15 9060
        !blank6 & (lacks_form(f5, f6) | (k5 == b'N') & (fields::first_byte(f6) == b'W')), // 16 9061
        !blank5 & (f3 == f5) & same_party(f3, f4, f6), // 17 9062
    ]
}

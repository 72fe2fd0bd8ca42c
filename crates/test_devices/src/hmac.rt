use bb_hmac::{Key, KeyError, Mac, hmac, same_mac};

// The code under a key that is spelt in hexadecimal, spelt so too.
fn code(key: &[u8], text: &[u8]) -> Result<[u8; 64], KeyError> {
    let key = Key::from_hex(key)?;
    let mut spelt = [0; 64];
    hex::encode_to_slice(hmac(&key, text, b"").as_slice(), &mut spelt).unwrap();
    Ok(spelt)
}

// RFC 4231, sections 4.2 to 4.5.
#[test]
fn published_codes_under_short_keys(rt: HostRuntime) {
    assert_eq!(rt;
        code(b"0b0b0b0b0b0b0b0b0b0b0b0b0b0b0b0b0b0b0b0b", b"Hi There"),
        Ok(*b"b0344c61d8db38535ca8afceaf0bf12b881dc200c9833da726e9376c2e32cff7")
    );
    assert_eq!(rt;
        code(b"4a656665", b"what do ya want for nothing?"),
        Ok(*b"5bdcc146bf60754e6a042426089575c75a003f089d2739839dec58b964ec3843")
    );
    assert_eq!(rt;
        code(&[b'a'; 40], &[0xdd; 50]),
        Ok(*b"773ea91e36800e46854db8ebd09181a72959098b3ef8c122d9635514ced565fe")
    );
    assert_eq!(rt;
        code(
            b"0102030405060708090a0b0c0d0e0f10111213141516171819",
            &[0xcd; 50]
        ),
        Ok(*b"82558a389a443c0ea4cc819899f2083a85f0faa3e578f8077a2e3ff46729665b")
    );
}

// RFC 4231, section 4.6, which gives the first 16 bytes of the code.
#[test]
fn published_code_that_is_cut_off(rt: HostRuntime) {
    let found = code(
        b"0c0c0c0c0c0c0c0c0c0c0c0c0c0c0c0c0c0c0c0c",
        b"Test With Truncation",
    );
    let front = found.ok().map(|code| code.starts_with(b"a3b6167473100ee06e0c796c2955552b"));
    assert_eq!(rt; front, Some(true));
}

// RFC 4231, sections 4.7 and 4.8: a key of 131 bytes.
#[test]
fn published_codes_under_a_long_key(rt: HostRuntime) {
    let key = [b'a'; 262];
    assert_eq!(rt;
        code(
            &key,
            b"Test Using Larger Than Block-Size Key - Hash Key First"
        ),
        Ok(*b"60e431591ee0b67f0d8a26aacbf5b77f8e0bc6213728c5140546040f0ee37f54")
    );
    assert_eq!(rt;
        code(
            &key,
            b"This is a test using a larger than block-size key and a larger than block-size data. \
              The key needs to be hashed before being used by the HMAC algorithm."
        ),
        Ok(*b"9b09ffa71b942fcb27635fbcd5b0e944bfdc63644f0713938a7f51535c3a35e2")
    );
}

// Codes that OpenSSL gives.
#[test]
fn keys_of_a_block_and_one_byte_more(rt: HostRuntime) {
    assert_eq!(rt;
        code(b"aa", b"Hi There"),
        Ok(*b"c456133c0a404a329e01a390baa2c2735ba7f2facffdfa6acf84c3294d8e3ac6")
    );
    assert_eq!(rt;
        code(&[b'a'; 128], b"Hi There"),
        Ok(*b"ebef34e13d0a0fe04593d043bc7a865106db0604211d404c18206d862e5d7852")
    );
    assert_eq!(rt;
        code(&[b'A'; 130], b"Hi There"),
        Ok(*b"00af6c42340b99e2e1d9a1cdf1547be431fe2e9bab3215c68d013ba858891927")
    );
}

// The code that RFC 4231 gives in section 4.3.
fn published_code() -> [u8; 32] {
    *b"\x5b\xdc\xc1\x46\xbf\x60\x75\x4e\x6a\x04\x24\x26\x08\x95\x75\xc7\
       \x5a\x00\x3f\x08\x9d\x27\x39\x83\x9d\xec\x58\xb9\x64\xec\x38\x43"
}

#[test]
fn pieces_are_the_text_that_they_make(rt: HostRuntime) {
    let text = b"what do ya want for nothing?";
    if let Ok(key) = Key::from_hex(b"4a656665 \t\r\n") {
        for cut in 0..29 {
            let (first, second) = text.split_at(cut);
            assert_eq!(rt; hmac(&key, first, second), published_code(), "cut at {cut}");
        }
        let mut mac = Mac::start(&key);
        for byte in text {
            mac.feed(&[*byte]);
        }
        assert_eq!(rt; mac.value(), published_code());
    } else {
        assert!(rt; false, "no key");
    }
}

#[test]
fn texts_that_are_no_key(rt: HostRuntime) {
    for text in ["", " ", "\t\r\n"] {
        assert_eq!(rt;
            Key::from_hex(text.as_bytes()).err(),
            Some(KeyError::Empty),
            "at {text:?}"
        );
    }
    for (text, place) in [
        ("4", 1),
        ("4a6", 3),
        ("4a6g", 3),
        ("4a 65", 2),
        ("\n4a", 0),
        ("0x4a", 1),
        ("4a6\n", 3),
    ] {
        assert_eq!(rt;
            Key::from_hex(text.as_bytes()).err(),
            Some(KeyError::BadHex(place)),
            "at {text:?}"
        );
    }
}

#[test]
fn a_code_with_any_bit_turned_differs(rt: HostRuntime) {
    let mac = published_code();
    assert!(rt; same_mac(&mac, &mac));
    assert!(rt; !same_mac(&mac, &mac[..31]));
    for bit in 0..256usize {
        let mut other = mac;
        other[bit / 8] ^= 1 << (bit % 8);
        assert!(rt; !same_mac(&mac, &other), "with bit {bit} turned");
    }
}

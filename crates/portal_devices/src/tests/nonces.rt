//! Numbers from the key stream of ChaCha20.
use crate::nonces::ChaChaNonces;
use portal_base::outside::Nonces;

/// The key stream of ChaCha20 for a key of zeros, in words, four to a number. The first four are those of RFC 8439,
/// appendix A.1, and all are as OpenSSL writes them.
const STREAM_OF_ZEROS: [u128; 18] = [
    0xade0b876_903df1a0_e56a5d40_28bd8653,
    0xb819d2bd_1aed8da0_ccef36a8_c70d778b,
    0x7c5941da_8d485751_3fe02477_374ad8b8,
    0xf4b8436a_1ca11815_69b687c3_8665eeb2,
    0xbee7079f_7a385155_7c97ba98_0d082d73,
    0xa0290fcb_6965e348_3e53c612_ed7aee32,
    0x7621b729_434ee69c_b03371d5_d539d874,
    0x281fed31_45fb0a51_1f0ae1ac_6f4d794b,
    0xe6a0092d_e16c2663_08d17eae_75a06819,
    0x998e718e_c662d37b_3446c3b0_5db3a0a9,
    0x68372701_0f5d7b1f_fd3a1e28_1ebc58e4,
    0x13d3d273_c094cfc9_6271f35f_f248a240,
    0x58a02013_6b56b3d7_aada20d5_0abfd23e,
    0x20b1b8c5_732785fb_349763c3_a4915cb4,
    0x83cbd42d_2e0d84f8_1358b1ed_3fac6210,
    0xfff82c1f_5618cd6d_6c1e6ae8_7e166731,
    0x7488a6e5_adc5472b_dfd459fb_b11dfd76,
    0x3be01ee5_2af8a91c_db3e17ca_4793728b,
];

const COUNTED_BYTES: [u8; 32] = [
    0, 1, 2, 3, 4, 5, 6, 7, 8, 9, 10, 11, 12, 13, 14, 15, 16, 17, 18, 19, 20, 21, 22, 23, 24, 25,
    26, 27, 28, 29, 30, 31,
];

/// The first numbers for the key of the bytes 0 to 31, as OpenSSL writes that stream.
const STREAM_OF_COUNTED_BYTES: [u128; 4] = [
    0x7d2bfd39_6a19c5d9_7703bd8d_494adcb8,
    0x6fd8358a_cc6adebc_4c7dccb2_9224ead8,
    0xe7cc232b_ab2360a2_69ef0e3f_647fc83a,
    0xea358225_2da3f7b1_a06227c2_0c415b48,
];

#[test]
fn numbers_are_the_key_stream(rt: HostRuntime) {
    let mut nonces = ChaChaNonces::from_seed([0; 32]);
    for expected in STREAM_OF_ZEROS {
        assert_eq!(rt; nonces.next().0, expected);
    }
    let mut nonces = ChaChaNonces::from_seed(COUNTED_BYTES);
    for expected in STREAM_OF_COUNTED_BYTES {
        assert_eq!(rt; nonces.next().0, expected);
    }
}

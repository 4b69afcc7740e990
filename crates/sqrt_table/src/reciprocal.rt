// The first guess at 1 / √m, by libm's table of reciprocal roots.
ghost use Rattle.std.specs.Prelude.{◌≡◌, ◌*◌, ◌^◌, ◌<◌};
ghost use Rattle.sqrt_table.specs.Table.{row_of, entry_of};

// The entries of `table`, four to a word, the first lowest. The compiler copies a constant array to the stack at each call, but reads a match on constants from static data.
fn row(j: u64) -> u64
    requires { j < 32 }
    ensures { result ≡ row_of j }
{
    match j {
        0 => 0xb044_b196_b2f0_b451,
        1 => 0xab43_ac79_adb6_aef9,
        2 => 0xa6aa_a7c8_a8eb_aa14,
        3 => 0xa26b_a373_a480_a592,
        4 => 0x9e7b_9f70_a06a_a168,
        5 => 0x9ad1_9bb5_9c9d_9d8a,
        6 => 0x9765_983a_9913_99f0,
        7 => 0x9430_94f8_95c4_9693,
        8 => 0x912e_91ea_92a9_936b,
        9 => 0x8e59_8f0a_8fbe_9075,
        10 => 0x8bac_8c54_8cfe_8daa,
        11 => 0x8925_89c4_8a64_8b07,
        12 => 0x86c0_8756_87ee_8889,
        13 => 0x8479_8508_8599_862b,
        14 => 0x8250_82d8_8361_83ec,
        15 => 0x8040_80c2_8145_81c9,
        16 => 0xf947_fb25_fd0e_ff02,
        17 => 0xf234_f3ea_f5aa_f773,
        18 => 0xebb3_ed47_eee3_f087,
        19 => 0xe5b2_e727_e8a3_ea27,
        20 => 0xe020_e17a_e2dc_e443,
        21 => 0xdaf1_dc34_dd7d_decb,
        22 => 0xd61a_d748_d87b_d9b3,
        23 => 0xd192_d2ad_d3cd_d4f1,
        24 => 0xcd51_ce5b_cf69_d07b,
        25 => 0xc94f_ca4a_cb48_cc4a,
        26 => 0xc587_c674_c764_c858,
        27 => 0xc1f4_c2d4_c3b7_c49d,
        28 => 0xbe90_bf65_c03c_c116,
        29 => 0xbb59_bc23_bcef_bdbe,
        30 => 0xb84a_b90a_b9cc_ba91,
        _ => 0xb560_b617_b6d0_b78c,
    }
}

// Entry i, extracted from its row. The bound of i is one of the table's places, as of any index.
fn packed_entry(i: u64) -> u64
    requires { i < 128 }
    ensures { result ≡ entry_of i }
{
    let w = row(i / 4);
    (w >> (16 * (i % 4)) as u32) % 0x1_0000
}

// Entry i as a guess with 32 fraction bits.
pub fn reciprocal(i: u64) -> u64
    requires { i < 128 }
    ensures { result ≡ entry_of i * 2 ^ 16 }
{
    packed_entry(i) * 0x1_0000
}

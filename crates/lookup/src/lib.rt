// The table of weights in code: a pair of 16-bit numbers for each phase.
#![tactic(auto)]

ghost use Rattle.std.specs.Prelude.{◌≡◌, ◌%◌};
ghost use Rattle.weight.specs.Table.{entry};
ghost use Rattle.lookup.specs.Packed.{packed};

use turn::Part;
use weight::Weight;

// x and y of a phase in one number of 32 bits, y in the upper half, each modulo 2^16: the whole numbers nearest to
// 16384·cos and 16384·sin. A `match` of constants is a table in memory, which no call builds. Nine bits are read, and each
// number of nine bits has a case, so that no test stands before the table: past a turn there are zeros, in a case of even
// and one of odd numbers, since a case of successive numbers is compiled to a test.
fn pair_at(e: Part) -> u32
    ensures { result ≡ packed (entry (e % 512)) }
{
    match e % 512 {
        0 => return 0x0000_4000, // 16384, 0
        1 => return 0x010c_3ffe, // 16382, 268
        2 => return 0x0218_3ff7, // 16375, 536
        3 => return 0x0324_3fec, // 16364, 804
        4 => return 0x0430_3fdd, // 16349, 1072
        5 => return 0x053b_3fc9, // 16329, 1339
        6 => return 0x0646_3fb1, // 16305, 1606
        7 => return 0x0750_3f95, // 16277, 1872
        8 => return 0x085b_3f74, // 16244, 2139
        9 => return 0x0964_3f4f, // 16207, 2404
        10 => return 0x0a6d_3f25, // 16165, 2669
        11 => return 0x0b75_3ef7, // 16119, 2933
        12 => return 0x0c7c_3ec5, // 16069, 3196
        13 => return 0x0d83_3e8f, // 16015, 3459
        14 => return 0x0e88_3e54, // 15956, 3720
        15 => return 0x0f8d_3e15, // 15893, 3981
        16 => return 0x1090_3dd2, // 15826, 4240
        17 => return 0x1193_3d8a, // 15754, 4499
        18 => return 0x1294_3d3f, // 15679, 4756
        19 => return 0x1394_3cef, // 15599, 5012
        20 => return 0x1492_3c9b, // 15515, 5266
        21 => return 0x1590_3c42, // 15426, 5520
        22 => return 0x168b_3be6, // 15334, 5771
        23 => return 0x1785_3b85, // 15237, 6021
        24 => return 0x187e_3b21, // 15137, 6270
        25 => return 0x1975_3ab8, // 15032, 6517
        26 => return 0x1a6a_3a4c, // 14924, 6762
        27 => return 0x1b5d_39db, // 14811, 7005
        28 => return 0x1c4e_3966, // 14694, 7246
        29 => return 0x1d3e_38ee, // 14574, 7486
        30 => return 0x1e2b_3871, // 14449, 7723
        31 => return 0x1f17_37f1, // 14321, 7959
        32 => return 0x2000_376d, // 14189, 8192
        33 => return 0x20e7_36e5, // 14053, 8423
        34 => return 0x21cc_3659, // 13913, 8652
        35 => return 0x22ae_35ca, // 13770, 8878
        36 => return 0x238e_3537, // 13623, 9102
        37 => return 0x246c_34a0, // 13472, 9324
        38 => return 0x2547_3406, // 13318, 9543
        39 => return 0x2620_3368, // 13160, 9760
        40 => return 0x26f6_32c6, // 12998, 9974
        41 => return 0x27c9_3221, // 12833, 10185
        42 => return 0x289a_3179, // 12665, 10394
        43 => return 0x2968_30cd, // 12493, 10600
        44 => return 0x2a33_301e, // 12318, 10803
        45 => return 0x2afb_2f6c, // 12140, 11003
        46 => return 0x2bc0_2eb6, // 11958, 11200
        47 => return 0x2c82_2dfd, // 11773, 11394
        48 => return 0x2d41_2d41, // 11585, 11585
        49 => return 0x2dfd_2c82, // 11394, 11773
        50 => return 0x2eb6_2bc0, // 11200, 11958
        51 => return 0x2f6c_2afb, // 11003, 12140
        52 => return 0x301e_2a33, // 10803, 12318
        53 => return 0x30cd_2968, // 10600, 12493
        54 => return 0x3179_289a, // 10394, 12665
        55 => return 0x3221_27c9, // 10185, 12833
        56 => return 0x32c6_26f6, // 9974, 12998
        57 => return 0x3368_2620, // 9760, 13160
        58 => return 0x3406_2547, // 9543, 13318
        59 => return 0x34a0_246c, // 9324, 13472
        60 => return 0x3537_238e, // 9102, 13623
        61 => return 0x35ca_22ae, // 8878, 13770
        62 => return 0x3659_21cc, // 8652, 13913
        63 => return 0x36e5_20e7, // 8423, 14053
        64 => return 0x376d_2000, // 8192, 14189
        65 => return 0x37f1_1f17, // 7959, 14321
        66 => return 0x3871_1e2b, // 7723, 14449
        67 => return 0x38ee_1d3e, // 7486, 14574
        68 => return 0x3966_1c4e, // 7246, 14694
        69 => return 0x39db_1b5d, // 7005, 14811
        70 => return 0x3a4c_1a6a, // 6762, 14924
        71 => return 0x3ab8_1975, // 6517, 15032
        72 => return 0x3b21_187e, // 6270, 15137
        73 => return 0x3b85_1785, // 6021, 15237
        74 => return 0x3be6_168b, // 5771, 15334
        75 => return 0x3c42_1590, // 5520, 15426
        76 => return 0x3c9b_1492, // 5266, 15515
        77 => return 0x3cef_1394, // 5012, 15599
        78 => return 0x3d3f_1294, // 4756, 15679
        79 => return 0x3d8a_1193, // 4499, 15754
        80 => return 0x3dd2_1090, // 4240, 15826
        81 => return 0x3e15_0f8d, // 3981, 15893
        82 => return 0x3e54_0e88, // 3720, 15956
        83 => return 0x3e8f_0d83, // 3459, 16015
        84 => return 0x3ec5_0c7c, // 3196, 16069
        85 => return 0x3ef7_0b75, // 2933, 16119
        86 => return 0x3f25_0a6d, // 2669, 16165
        87 => return 0x3f4f_0964, // 2404, 16207
        88 => return 0x3f74_085b, // 2139, 16244
        89 => return 0x3f95_0750, // 1872, 16277
        90 => return 0x3fb1_0646, // 1606, 16305
        91 => return 0x3fc9_053b, // 1339, 16329
        92 => return 0x3fdd_0430, // 1072, 16349
        93 => return 0x3fec_0324, // 804, 16364
        94 => return 0x3ff7_0218, // 536, 16375
        95 => return 0x3ffe_010c, // 268, 16382
        96 => return 0x4000_0000, // 0, 16384
        97 => return 0x3ffe_fef4, // -268, 16382
        98 => return 0x3ff7_fde8, // -536, 16375
        99 => return 0x3fec_fcdc, // -804, 16364
        100 => return 0x3fdd_fbd0, // -1072, 16349
        101 => return 0x3fc9_fac5, // -1339, 16329
        102 => return 0x3fb1_f9ba, // -1606, 16305
        103 => return 0x3f95_f8b0, // -1872, 16277
        104 => return 0x3f74_f7a5, // -2139, 16244
        105 => return 0x3f4f_f69c, // -2404, 16207
        106 => return 0x3f25_f593, // -2669, 16165
        107 => return 0x3ef7_f48b, // -2933, 16119
        108 => return 0x3ec5_f384, // -3196, 16069
        109 => return 0x3e8f_f27d, // -3459, 16015
        110 => return 0x3e54_f178, // -3720, 15956
        111 => return 0x3e15_f073, // -3981, 15893
        112 => return 0x3dd2_ef70, // -4240, 15826
        113 => return 0x3d8a_ee6d, // -4499, 15754
        114 => return 0x3d3f_ed6c, // -4756, 15679
        115 => return 0x3cef_ec6c, // -5012, 15599
        116 => return 0x3c9b_eb6e, // -5266, 15515
        117 => return 0x3c42_ea70, // -5520, 15426
        118 => return 0x3be6_e975, // -5771, 15334
        119 => return 0x3b85_e87b, // -6021, 15237
        120 => return 0x3b21_e782, // -6270, 15137
        121 => return 0x3ab8_e68b, // -6517, 15032
        122 => return 0x3a4c_e596, // -6762, 14924
        123 => return 0x39db_e4a3, // -7005, 14811
        124 => return 0x3966_e3b2, // -7246, 14694
        125 => return 0x38ee_e2c2, // -7486, 14574
        126 => return 0x3871_e1d5, // -7723, 14449
        127 => return 0x37f1_e0e9, // -7959, 14321
        128 => return 0x376d_e000, // -8192, 14189
        129 => return 0x36e5_df19, // -8423, 14053
        130 => return 0x3659_de34, // -8652, 13913
        131 => return 0x35ca_dd52, // -8878, 13770
        132 => return 0x3537_dc72, // -9102, 13623
        133 => return 0x34a0_db94, // -9324, 13472
        134 => return 0x3406_dab9, // -9543, 13318
        135 => return 0x3368_d9e0, // -9760, 13160
        136 => return 0x32c6_d90a, // -9974, 12998
        137 => return 0x3221_d837, // -10185, 12833
        138 => return 0x3179_d766, // -10394, 12665
        139 => return 0x30cd_d698, // -10600, 12493
        140 => return 0x301e_d5cd, // -10803, 12318
        141 => return 0x2f6c_d505, // -11003, 12140
        142 => return 0x2eb6_d440, // -11200, 11958
        143 => return 0x2dfd_d37e, // -11394, 11773
        144 => return 0x2d41_d2bf, // -11585, 11585
        145 => return 0x2c82_d203, // -11773, 11394
        146 => return 0x2bc0_d14a, // -11958, 11200
        147 => return 0x2afb_d094, // -12140, 11003
        148 => return 0x2a33_cfe2, // -12318, 10803
        149 => return 0x2968_cf33, // -12493, 10600
        150 => return 0x289a_ce87, // -12665, 10394
        151 => return 0x27c9_cddf, // -12833, 10185
        152 => return 0x26f6_cd3a, // -12998, 9974
        153 => return 0x2620_cc98, // -13160, 9760
        154 => return 0x2547_cbfa, // -13318, 9543
        155 => return 0x246c_cb60, // -13472, 9324
        156 => return 0x238e_cac9, // -13623, 9102
        157 => return 0x22ae_ca36, // -13770, 8878
        158 => return 0x21cc_c9a7, // -13913, 8652
        159 => return 0x20e7_c91b, // -14053, 8423
        160 => return 0x2000_c893, // -14189, 8192
        161 => return 0x1f17_c80f, // -14321, 7959
        162 => return 0x1e2b_c78f, // -14449, 7723
        163 => return 0x1d3e_c712, // -14574, 7486
        164 => return 0x1c4e_c69a, // -14694, 7246
        165 => return 0x1b5d_c625, // -14811, 7005
        166 => return 0x1a6a_c5b4, // -14924, 6762
        167 => return 0x1975_c548, // -15032, 6517
        168 => return 0x187e_c4df, // -15137, 6270
        169 => return 0x1785_c47b, // -15237, 6021
        170 => return 0x168b_c41a, // -15334, 5771
        171 => return 0x1590_c3be, // -15426, 5520
        172 => return 0x1492_c365, // -15515, 5266
        173 => return 0x1394_c311, // -15599, 5012
        174 => return 0x1294_c2c1, // -15679, 4756
        175 => return 0x1193_c276, // -15754, 4499
        176 => return 0x1090_c22e, // -15826, 4240
        177 => return 0x0f8d_c1eb, // -15893, 3981
        178 => return 0x0e88_c1ac, // -15956, 3720
        179 => return 0x0d83_c171, // -16015, 3459
        180 => return 0x0c7c_c13b, // -16069, 3196
        181 => return 0x0b75_c109, // -16119, 2933
        182 => return 0x0a6d_c0db, // -16165, 2669
        183 => return 0x0964_c0b1, // -16207, 2404
        184 => return 0x085b_c08c, // -16244, 2139
        185 => return 0x0750_c06b, // -16277, 1872
        186 => return 0x0646_c04f, // -16305, 1606
        187 => return 0x053b_c037, // -16329, 1339
        188 => return 0x0430_c023, // -16349, 1072
        189 => return 0x0324_c014, // -16364, 804
        190 => return 0x0218_c009, // -16375, 536
        191 => return 0x010c_c002, // -16382, 268
        192 => return 0x0000_c000, // -16384, 0
        193 => return 0xfef4_c002, // -16382, -268
        194 => return 0xfde8_c009, // -16375, -536
        195 => return 0xfcdc_c014, // -16364, -804
        196 => return 0xfbd0_c023, // -16349, -1072
        197 => return 0xfac5_c037, // -16329, -1339
        198 => return 0xf9ba_c04f, // -16305, -1606
        199 => return 0xf8b0_c06b, // -16277, -1872
        200 => return 0xf7a5_c08c, // -16244, -2139
        201 => return 0xf69c_c0b1, // -16207, -2404
        202 => return 0xf593_c0db, // -16165, -2669
        203 => return 0xf48b_c109, // -16119, -2933
        204 => return 0xf384_c13b, // -16069, -3196
        205 => return 0xf27d_c171, // -16015, -3459
        206 => return 0xf178_c1ac, // -15956, -3720
        207 => return 0xf073_c1eb, // -15893, -3981
        208 => return 0xef70_c22e, // -15826, -4240
        209 => return 0xee6d_c276, // -15754, -4499
        210 => return 0xed6c_c2c1, // -15679, -4756
        211 => return 0xec6c_c311, // -15599, -5012
        212 => return 0xeb6e_c365, // -15515, -5266
        213 => return 0xea70_c3be, // -15426, -5520
        214 => return 0xe975_c41a, // -15334, -5771
        215 => return 0xe87b_c47b, // -15237, -6021
        216 => return 0xe782_c4df, // -15137, -6270
        217 => return 0xe68b_c548, // -15032, -6517
        218 => return 0xe596_c5b4, // -14924, -6762
        219 => return 0xe4a3_c625, // -14811, -7005
        220 => return 0xe3b2_c69a, // -14694, -7246
        221 => return 0xe2c2_c712, // -14574, -7486
        222 => return 0xe1d5_c78f, // -14449, -7723
        223 => return 0xe0e9_c80f, // -14321, -7959
        224 => return 0xe000_c893, // -14189, -8192
        225 => return 0xdf19_c91b, // -14053, -8423
        226 => return 0xde34_c9a7, // -13913, -8652
        227 => return 0xdd52_ca36, // -13770, -8878
        228 => return 0xdc72_cac9, // -13623, -9102
        229 => return 0xdb94_cb60, // -13472, -9324
        230 => return 0xdab9_cbfa, // -13318, -9543
        231 => return 0xd9e0_cc98, // -13160, -9760
        232 => return 0xd90a_cd3a, // -12998, -9974
        233 => return 0xd837_cddf, // -12833, -10185
        234 => return 0xd766_ce87, // -12665, -10394
        235 => return 0xd698_cf33, // -12493, -10600
        236 => return 0xd5cd_cfe2, // -12318, -10803
        237 => return 0xd505_d094, // -12140, -11003
        238 => return 0xd440_d14a, // -11958, -11200
        239 => return 0xd37e_d203, // -11773, -11394
        240 => return 0xd2bf_d2bf, // -11585, -11585
        241 => return 0xd203_d37e, // -11394, -11773
        242 => return 0xd14a_d440, // -11200, -11958
        243 => return 0xd094_d505, // -11003, -12140
        244 => return 0xcfe2_d5cd, // -10803, -12318
        245 => return 0xcf33_d698, // -10600, -12493
        246 => return 0xce87_d766, // -10394, -12665
        247 => return 0xcddf_d837, // -10185, -12833
        248 => return 0xcd3a_d90a, // -9974, -12998
        249 => return 0xcc98_d9e0, // -9760, -13160
        250 => return 0xcbfa_dab9, // -9543, -13318
        251 => return 0xcb60_db94, // -9324, -13472
        252 => return 0xcac9_dc72, // -9102, -13623
        253 => return 0xca36_dd52, // -8878, -13770
        254 => return 0xc9a7_de34, // -8652, -13913
        255 => return 0xc91b_df19, // -8423, -14053
        256 => return 0xc893_e000, // -8192, -14189
        257 => return 0xc80f_e0e9, // -7959, -14321
        258 => return 0xc78f_e1d5, // -7723, -14449
        259 => return 0xc712_e2c2, // -7486, -14574
        260 => return 0xc69a_e3b2, // -7246, -14694
        261 => return 0xc625_e4a3, // -7005, -14811
        262 => return 0xc5b4_e596, // -6762, -14924
        263 => return 0xc548_e68b, // -6517, -15032
        264 => return 0xc4df_e782, // -6270, -15137
        265 => return 0xc47b_e87b, // -6021, -15237
        266 => return 0xc41a_e975, // -5771, -15334
        267 => return 0xc3be_ea70, // -5520, -15426
        268 => return 0xc365_eb6e, // -5266, -15515
        269 => return 0xc311_ec6c, // -5012, -15599
        270 => return 0xc2c1_ed6c, // -4756, -15679
        271 => return 0xc276_ee6d, // -4499, -15754
        272 => return 0xc22e_ef70, // -4240, -15826
        273 => return 0xc1eb_f073, // -3981, -15893
        274 => return 0xc1ac_f178, // -3720, -15956
        275 => return 0xc171_f27d, // -3459, -16015
        276 => return 0xc13b_f384, // -3196, -16069
        277 => return 0xc109_f48b, // -2933, -16119
        278 => return 0xc0db_f593, // -2669, -16165
        279 => return 0xc0b1_f69c, // -2404, -16207
        280 => return 0xc08c_f7a5, // -2139, -16244
        281 => return 0xc06b_f8b0, // -1872, -16277
        282 => return 0xc04f_f9ba, // -1606, -16305
        283 => return 0xc037_fac5, // -1339, -16329
        284 => return 0xc023_fbd0, // -1072, -16349
        285 => return 0xc014_fcdc, // -804, -16364
        286 => return 0xc009_fde8, // -536, -16375
        287 => return 0xc002_fef4, // -268, -16382
        288 => return 0xc000_0000, // 0, -16384
        289 => return 0xc002_010c, // 268, -16382
        290 => return 0xc009_0218, // 536, -16375
        291 => return 0xc014_0324, // 804, -16364
        292 => return 0xc023_0430, // 1072, -16349
        293 => return 0xc037_053b, // 1339, -16329
        294 => return 0xc04f_0646, // 1606, -16305
        295 => return 0xc06b_0750, // 1872, -16277
        296 => return 0xc08c_085b, // 2139, -16244
        297 => return 0xc0b1_0964, // 2404, -16207
        298 => return 0xc0db_0a6d, // 2669, -16165
        299 => return 0xc109_0b75, // 2933, -16119
        300 => return 0xc13b_0c7c, // 3196, -16069
        301 => return 0xc171_0d83, // 3459, -16015
        302 => return 0xc1ac_0e88, // 3720, -15956
        303 => return 0xc1eb_0f8d, // 3981, -15893
        304 => return 0xc22e_1090, // 4240, -15826
        305 => return 0xc276_1193, // 4499, -15754
        306 => return 0xc2c1_1294, // 4756, -15679
        307 => return 0xc311_1394, // 5012, -15599
        308 => return 0xc365_1492, // 5266, -15515
        309 => return 0xc3be_1590, // 5520, -15426
        310 => return 0xc41a_168b, // 5771, -15334
        311 => return 0xc47b_1785, // 6021, -15237
        312 => return 0xc4df_187e, // 6270, -15137
        313 => return 0xc548_1975, // 6517, -15032
        314 => return 0xc5b4_1a6a, // 6762, -14924
        315 => return 0xc625_1b5d, // 7005, -14811
        316 => return 0xc69a_1c4e, // 7246, -14694
        317 => return 0xc712_1d3e, // 7486, -14574
        318 => return 0xc78f_1e2b, // 7723, -14449
        319 => return 0xc80f_1f17, // 7959, -14321
        320 => return 0xc893_2000, // 8192, -14189
        321 => return 0xc91b_20e7, // 8423, -14053
        322 => return 0xc9a7_21cc, // 8652, -13913
        323 => return 0xca36_22ae, // 8878, -13770
        324 => return 0xcac9_238e, // 9102, -13623
        325 => return 0xcb60_246c, // 9324, -13472
        326 => return 0xcbfa_2547, // 9543, -13318
        327 => return 0xcc98_2620, // 9760, -13160
        328 => return 0xcd3a_26f6, // 9974, -12998
        329 => return 0xcddf_27c9, // 10185, -12833
        330 => return 0xce87_289a, // 10394, -12665
        331 => return 0xcf33_2968, // 10600, -12493
        332 => return 0xcfe2_2a33, // 10803, -12318
        333 => return 0xd094_2afb, // 11003, -12140
        334 => return 0xd14a_2bc0, // 11200, -11958
        335 => return 0xd203_2c82, // 11394, -11773
        336 => return 0xd2bf_2d41, // 11585, -11585
        337 => return 0xd37e_2dfd, // 11773, -11394
        338 => return 0xd440_2eb6, // 11958, -11200
        339 => return 0xd505_2f6c, // 12140, -11003
        340 => return 0xd5cd_301e, // 12318, -10803
        341 => return 0xd698_30cd, // 12493, -10600
        342 => return 0xd766_3179, // 12665, -10394
        343 => return 0xd837_3221, // 12833, -10185
        344 => return 0xd90a_32c6, // 12998, -9974
        345 => return 0xd9e0_3368, // 13160, -9760
        346 => return 0xdab9_3406, // 13318, -9543
        347 => return 0xdb94_34a0, // 13472, -9324
        348 => return 0xdc72_3537, // 13623, -9102
        349 => return 0xdd52_35ca, // 13770, -8878
        350 => return 0xde34_3659, // 13913, -8652
        351 => return 0xdf19_36e5, // 14053, -8423
        352 => return 0xe000_376d, // 14189, -8192
        353 => return 0xe0e9_37f1, // 14321, -7959
        354 => return 0xe1d5_3871, // 14449, -7723
        355 => return 0xe2c2_38ee, // 14574, -7486
        356 => return 0xe3b2_3966, // 14694, -7246
        357 => return 0xe4a3_39db, // 14811, -7005
        358 => return 0xe596_3a4c, // 14924, -6762
        359 => return 0xe68b_3ab8, // 15032, -6517
        360 => return 0xe782_3b21, // 15137, -6270
        361 => return 0xe87b_3b85, // 15237, -6021
        362 => return 0xe975_3be6, // 15334, -5771
        363 => return 0xea70_3c42, // 15426, -5520
        364 => return 0xeb6e_3c9b, // 15515, -5266
        365 => return 0xec6c_3cef, // 15599, -5012
        366 => return 0xed6c_3d3f, // 15679, -4756
        367 => return 0xee6d_3d8a, // 15754, -4499
        368 => return 0xef70_3dd2, // 15826, -4240
        369 => return 0xf073_3e15, // 15893, -3981
        370 => return 0xf178_3e54, // 15956, -3720
        371 => return 0xf27d_3e8f, // 16015, -3459
        372 => return 0xf384_3ec5, // 16069, -3196
        373 => return 0xf48b_3ef7, // 16119, -2933
        374 => return 0xf593_3f25, // 16165, -2669
        375 => return 0xf69c_3f4f, // 16207, -2404
        376 => return 0xf7a5_3f74, // 16244, -2139
        377 => return 0xf8b0_3f95, // 16277, -1872
        378 => return 0xf9ba_3fb1, // 16305, -1606
        379 => return 0xfac5_3fc9, // 16329, -1339
        380 => return 0xfbd0_3fdd, // 16349, -1072
        381 => return 0xfcdc_3fec, // 16364, -804
        382 => return 0xfde8_3ff7, // 16375, -536
        383 => return 0xfef4_3ffe, // 16382, -268
        384
        | 386
        | 388
        | 390
        | 392
        | 394
        | 396
        | 398
        | 400
        | 402
        | 404
        | 406
        | 408
        | 410
        | 412
        | 414
        | 416
        | 418
        | 420
        | 422
        | 424
        | 426
        | 428
        | 430
        | 432
        | 434
        | 436
        | 438
        | 440
        | 442
        | 444
        | 446
        | 448
        | 450
        | 452
        | 454
        | 456
        | 458
        | 460
        | 462
        | 464
        | 466
        | 468
        | 470
        | 472
        | 474
        | 476
        | 478
        | 480
        | 482
        | 484
        | 486
        | 488
        | 490
        | 492
        | 494
        | 496
        | 498
        | 500
        | 502
        | 504
        | 506
        | 508
        | 510 => return 0,
        385
        | 387
        | 389
        | 391
        | 393
        | 395
        | 397
        | 399
        | 401
        | 403
        | 405
        | 407
        | 409
        | 411
        | 413
        | 415
        | 417
        | 419
        | 421
        | 423
        | 425
        | 427
        | 429
        | 431
        | 433
        | 435
        | 437
        | 439
        | 441
        | 443
        | 445
        | 447
        | 449
        | 451
        | 453
        | 455
        | 457
        | 459
        | 461
        | 463
        | 465
        | 467
        | 469
        | 471
        | 473
        | 475
        | 477
        | 479
        | 481
        | 483
        | 485
        | 487
        | 489
        | 491
        | 493
        | 495
        | 497
        | 499
        | 501
        | 503
        | 505
        | 507
        | 509 => return 0,
        _ => return 0,
    }
}

// The weight of a phase: `weight_at(TURN / 4)` is 0, 16384. Of a number that is no phase nine bits are read, and 0, 0 is
// given where these are a turn or more.
pub fn weight_at(e: Part) -> Weight
    ensures { result ≡ entry (e % 512) }
{
    let pair = pair_at(e);
    let x = ((pair % 65536) as u16).cast_signed();
    let y = ((pair / 65536) as u16).cast_signed();
    Weight { x, y }
}

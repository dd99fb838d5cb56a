//! Names by their characters, from a second source: PHP's table for HTML 5.
//! Written by tools/named_references.py; not edited by hand.

/// The code points of 1511 characters, each with a name of it, by rising code points.
pub static NAMES: &str = "\
    0009 Tab,000A NewLine,0021 excl,0022 quot,0023 num,0024 dollar,0025 percnt,0026 amp,0027 apos,\
     0028 lpar,0029 rpar,002A ast,002B plus,002C comma,002E period,002F sol,003A colon,003B semi,\
     003C lt,003C+20D2 nvlt,003D equals,003D+20E5 bne,003E gt,003E+20D2 nvgt,003F quest,\
     0040 commat,005B lbrack,005C bsol,005D rsqb,005E Hat,005F lowbar,0060 grave,0066+006A fjlig,\
     007B lbrace,007C vert,007D rcub,00A0 nbsp,00A1 iexcl,00A2 cent,00A3 pound,00A4 curren,\
     00A5 yen,00A6 brvbar,00A7 sect,00A8 DoubleDot,00A9 copy,00AA ordf,00AB laquo,00AC not,\
     00AD shy,00AE reg,00AF macr,00B0 deg,00B1 plusmn,00B2 sup2,00B3 sup3,00B4 DiacriticalAcute,\
     00B5 micro,00B6 para,00B7 CenterDot,00B8 Cedilla,00B9 sup1,00BA ordm,00BB raquo,00BC frac14,\
     00BD half,00BE frac34,00BF iquest,00C0 Agrave,00C1 Aacute,00C2 Acirc,00C3 Atilde,00C4 Auml,\
     00C5 Aring,00C6 AElig,00C7 Ccedil,00C8 Egrave,00C9 Eacute,00CA Ecirc,00CB Euml,00CC Igrave,\
     00CD Iacute,00CE Icirc,00CF Iuml,00D0 ETH,00D1 Ntilde,00D2 Ograve,00D3 Oacute,00D4 Ocirc,\
     00D5 Otilde,00D6 Ouml,00D7 times,00D8 Oslash,00D9 Ugrave,00DA Uacute,00DB Ucirc,00DC Uuml,\
     00DD Yacute,00DE THORN,00DF szlig,00E0 agrave,00E1 aacute,00E2 acirc,00E3 atilde,00E4 auml,\
     00E5 aring,00E6 aelig,00E7 ccedil,00E8 egrave,00E9 eacute,00EA ecirc,00EB euml,00EC igrave,\
     00ED iacute,00EE icirc,00EF iuml,00F0 eth,00F1 ntilde,00F2 ograve,00F3 oacute,00F4 ocirc,\
     00F5 otilde,00F6 ouml,00F7 divide,00F8 oslash,00F9 ugrave,00FA uacute,00FB ucirc,00FC uuml,\
     00FD yacute,00FE thorn,00FF yuml,0100 Amacr,0101 amacr,0102 Abreve,0103 abreve,0104 Aogon,\
     0105 aogon,0106 Cacute,0107 cacute,0108 Ccirc,0109 ccirc,010A Cdot,010B cdot,010C Ccaron,\
     010D ccaron,010E Dcaron,010F dcaron,0110 Dstrok,0111 dstrok,0112 Emacr,0113 emacr,0116 Edot,\
     0117 edot,0118 Eogon,0119 eogon,011A Ecaron,011B ecaron,011C Gcirc,011D gcirc,011E Gbreve,\
     011F gbreve,0120 Gdot,0121 gdot,0122 Gcedil,0124 Hcirc,0125 hcirc,0126 Hstrok,0127 hstrok,\
     0128 Itilde,0129 itilde,012A Imacr,012B imacr,012E Iogon,012F iogon,0130 Idot,0131 inodot,\
     0132 IJlig,0133 ijlig,0134 Jcirc,0135 jcirc,0136 Kcedil,0137 kcedil,0138 kgreen,0139 Lacute,\
     013A lacute,013B Lcedil,013C lcedil,013D Lcaron,013E lcaron,013F Lmidot,0140 lmidot,\
     0141 Lstrok,0142 lstrok,0143 Nacute,0144 nacute,0145 Ncedil,0146 ncedil,0147 Ncaron,\
     0148 ncaron,0149 napos,014A ENG,014B eng,014C Omacr,014D omacr,0150 Odblac,0151 odblac,\
     0152 OElig,0153 oelig,0154 Racute,0155 racute,0156 Rcedil,0157 rcedil,0158 Rcaron,\
     0159 rcaron,015A Sacute,015B sacute,015C Scirc,015D scirc,015E Scedil,015F scedil,\
     0160 Scaron,0161 scaron,0162 Tcedil,0163 tcedil,0164 Tcaron,0165 tcaron,0166 Tstrok,\
     0167 tstrok,0168 Utilde,0169 utilde,016A Umacr,016B umacr,016C Ubreve,016D ubreve,016E Uring,\
     016F uring,0170 Udblac,0171 udblac,0172 Uogon,0173 uogon,0174 Wcirc,0175 wcirc,0176 Ycirc,\
     0177 ycirc,0178 Yuml,0179 Zacute,017A zacute,017B Zdot,017C zdot,017D Zcaron,017E zcaron,\
     0192 fnof,01B5 imped,01F5 gacute,0237 jmath,02C6 circ,02C7 Hacek,02D8 Breve,02D9 dot,\
     02DA ring,02DB ogon,02DC DiacriticalTilde,02DD DiacriticalDoubleAcute,0311 DownBreve,\
     0391 Alpha,0392 Beta,0393 Gamma,0394 Delta,0395 Epsilon,0396 Zeta,0397 Eta,0398 Theta,\
     0399 Iota,039A Kappa,039B Lambda,039C Mu,039D Nu,039E Xi,039F Omicron,03A0 Pi,03A1 Rho,\
     03A3 Sigma,03A4 Tau,03A5 Upsilon,03A6 Phi,03A7 Chi,03A8 Psi,03A9 Omega,03B1 alpha,03B2 beta,\
     03B3 gamma,03B4 delta,03B5 epsi,03B6 zeta,03B7 eta,03B8 theta,03B9 iota,03BA kappa,\
     03BB lambda,03BC mu,03BD nu,03BE xi,03BF omicron,03C0 pi,03C1 rho,03C2 sigmav,03C3 sigma,\
     03C4 tau,03C5 upsi,03C6 phi,03C7 chi,03C8 psi,03C9 omega,03D1 thetasym,03D2 upsih,\
     03D5 straightphi,03D6 piv,03DC Gammad,03DD gammad,03F0 varkappa,03F1 rhov,\
     03F5 straightepsilon,03F6 backepsilon,0401 IOcy,0402 DJcy,0403 GJcy,0404 Jukcy,0405 DScy,\
     0406 Iukcy,0407 YIcy,0408 Jsercy,0409 LJcy,040A NJcy,040B TSHcy,040C KJcy,040E Ubrcy,\
     040F DZcy,0410 Acy,0411 Bcy,0412 Vcy,0413 Gcy,0414 Dcy,0415 IEcy,0416 ZHcy,0417 Zcy,0418 Icy,\
     0419 Jcy,041A Kcy,041B Lcy,041C Mcy,041D Ncy,041E Ocy,041F Pcy,0420 Rcy,0421 Scy,0422 Tcy,\
     0423 Ucy,0424 Fcy,0425 KHcy,0426 TScy,0427 CHcy,0428 SHcy,0429 SHCHcy,042A HARDcy,042B Ycy,\
     042C SOFTcy,042D Ecy,042E YUcy,042F YAcy,0430 acy,0431 bcy,0432 vcy,0433 gcy,0434 dcy,\
     0435 iecy,0436 zhcy,0437 zcy,0438 icy,0439 jcy,043A kcy,043B lcy,043C mcy,043D ncy,043E ocy,\
     043F pcy,0440 rcy,0441 scy,0442 tcy,0443 ucy,0444 fcy,0445 khcy,0446 tscy,0447 chcy,\
     0448 shcy,0449 shchcy,044A hardcy,044B ycy,044C softcy,044D ecy,044E yucy,044F yacy,\
     0451 iocy,0452 djcy,0453 gjcy,0454 jukcy,0455 dscy,0456 iukcy,0457 yicy,0458 jsercy,\
     0459 ljcy,045A njcy,045B tshcy,045C kjcy,045E ubrcy,045F dzcy,2002 ensp,2003 emsp,\
     2004 emsp13,2005 emsp14,2007 numsp,2008 puncsp,2009 ThinSpace,200A hairsp,\
     200B ZeroWidthSpace,200C zwnj,200D zwj,200E lrm,200F rlm,2010 hyphen,2013 ndash,2014 mdash,\
     2015 horbar,2016 Verbar,2018 OpenCurlyQuote,2019 rsquo,201A sbquo,201C OpenCurlyDoubleQuote,\
     201D rdquo,201E bdquo,2020 dagger,2021 Dagger,2022 bull,2025 nldr,2026 hellip,2030 permil,\
     2031 pertenk,2032 prime,2033 Prime,2034 tprime,2035 backprime,2039 lsaquo,203A rsaquo,\
     203E oline,2041 caret,2043 hybull,2044 frasl,204F bsemi,2057 qprime,205F MediumSpace,\
     205F+200A ThickSpace,2060 NoBreak,2061 af,2062 InvisibleTimes,2063 ic,20AC euro,\
     20DB TripleDot,20DC DotDot,2102 complexes,2105 incare,210A gscr,210B HilbertSpace,210C Hfr,\
     210D Hopf,210E planckh,210F planck,2110 imagline,2111 Ifr,2112 lagran,2113 ell,2115 naturals,\
     2116 numero,2117 copysr,2118 wp,2119 primes,211A rationals,211B realine,211C Rfr,211D Ropf,\
     211E rx,2122 trade,2124 Zopf,2127 mho,2128 Zfr,2129 iiota,212C Bscr,212D Cfr,212F escr,\
     2130 expectation,2131 Fouriertrf,2133 Mellintrf,2134 orderof,2135 aleph,2136 beth,2137 gimel,\
     2138 daleth,2145 CapitalDifferentialD,2146 DifferentialD,2147 exponentiale,2148 ImaginaryI,\
     2153 frac13,2154 frac23,2155 frac15,2156 frac25,2157 frac35,2158 frac45,2159 frac16,\
     215A frac56,215B frac18,215C frac38,215D frac58,215E frac78,2190 larr,2191 uarr,2192 srarr,\
     2193 darr,2194 harr,2195 UpDownArrow,2196 nwarrow,2197 UpperRightArrow,2198 LowerRightArrow,\
     2199 swarr,219A nleftarrow,219B nrarr,219D rarrw,219D+0338 nrarrw,219E Larr,219F Uarr,\
     21A0 twoheadrightarrow,21A1 Darr,21A2 larrtl,21A3 rarrtl,21A4 LeftTeeArrow,21A5 UpTeeArrow,\
     21A6 map,21A7 DownTeeArrow,21A9 larrhk,21AA rarrhk,21AB larrlp,21AC looparrowright,\
     21AD harrw,21AE nleftrightarrow,21B0 Lsh,21B1 rsh,21B2 ldsh,21B3 rdsh,21B5 crarr,\
     21B6 curvearrowleft,21B7 curarr,21BA olarr,21BB orarr,21BC leftharpoonup,\
     21BD leftharpoondown,21BE RightUpVector,21BF uharl,21C0 rharu,21C1 rhard,\
     21C2 RightDownVector,21C3 dharl,21C4 rightleftarrows,21C5 udarr,21C6 lrarr,21C7 llarr,\
     21C8 upuparrows,21C9 rrarr,21CA downdownarrows,21CB leftrightharpoons,21CC rightleftharpoons,\
     21CD nLeftarrow,21CE nhArr,21CF nrArr,21D0 DoubleLeftArrow,21D1 DoubleUpArrow,21D2 Implies,\
     21D3 Downarrow,21D4 hArr,21D5 Updownarrow,21D6 nwArr,21D7 neArr,21D8 seArr,21D9 swArr,\
     21DA lAarr,21DB rAarr,21DD zigrarr,21E4 LeftArrowBar,21E5 RightArrowBar,\
     21F5 DownArrowUpArrow,21FD loarr,21FE roarr,21FF hoarr,2200 forall,2201 comp,2202 part,\
     2202+0338 npart,2203 Exists,2204 nexist,2205 empty,2207 nabla,2208 isinv,2209 notin,\
     220B ReverseElement,220C notniva,220F prod,2210 Coproduct,2211 sum,2212 minus,2213 MinusPlus,\
     2214 plusdo,2216 ssetmn,2217 lowast,2218 compfn,221A Sqrt,221D prop,221E infin,221F angrt,\
     2220 angle,2220+20D2 nang,2221 angmsd,2222 angsph,2223 mid,2224 nshortmid,2225 shortparallel,\
     2226 nparallel,2227 and,2228 or,2229 cap,2229+FE00 caps,222A cup,222A+FE00 cups,\
     222B Integral,222C Int,222D tint,222E ContourIntegral,222F DoubleContourIntegral,\
     2230 Cconint,2231 cwint,2232 cwconint,2233 awconint,2234 there4,2235 Because,2236 ratio,\
     2237 Colon,2238 minusd,223A mDDot,223B homtht,223C sim,223C+20D2 nvsim,223D bsim,\
     223D+0331 race,223E ac,223E+0333 acE,223F acd,2240 wr,2241 NotTilde,2242 esim,\
     2242+0338 nesim,2243 simeq,2244 nsime,2245 TildeFullEqual,2246 simne,2247 ncong,2248 approx,\
     2249 napprox,224A ape,224B apid,224B+0338 napid,224C bcong,224D CupCap,224D+20D2 nvap,\
     224E bump,224E+0338 nbump,224F HumpEqual,224F+0338 nbumpe,2250 esdot,2250+0338 nedot,\
     2251 doteqdot,2252 fallingdotseq,2253 risingdotseq,2254 coloneq,2255 eqcolon,2256 ecir,\
     2257 circeq,2259 wedgeq,225A veeeq,225C triangleq,225F equest,2260 NotEqual,2261 Congruent,\
     2261+20E5 bnequiv,2262 NotCongruent,2264 leq,2264+20D2 nvle,2265 ge,2265+20D2 nvge,2266 lE,\
     2266+0338 nlE,2267 geqq,2267+0338 NotGreaterFullEqual,2268 lneqq,2268+FE00 lvertneqq,\
     2269 gneqq,2269+FE00 gvertneqq,226A ll,226A+0338 nLtv,226A+20D2 nLt,226B gg,\
     226B+0338 NotGreaterGreater,226B+20D2 nGt,226C between,226D NotCupCap,226E NotLess,226F ngtr,\
     2270 NotLessEqual,2271 ngeq,2272 LessTilde,2273 GreaterTilde,2274 nlsim,2275 ngsim,\
     2276 lessgtr,2277 gl,2278 ntlg,2279 NotGreaterLess,227A prec,227B succ,\
     227C PrecedesSlantEqual,227D succcurlyeq,227E precsim,227F SucceedsTilde,\
     227F+0338 NotSucceedsTilde,2280 npr,2281 NotSucceeds,2282 sub,2282+20D2 vnsub,2283 sup,\
     2283+20D2 nsupset,2284 nsub,2285 nsup,2286 SubsetEqual,2287 supe,2288 NotSubsetEqual,\
     2289 NotSupersetEqual,228A subsetneq,228A+FE00 vsubne,228B supsetneq,228B+FE00 vsupne,\
     228D cupdot,228E UnionPlus,228F sqsub,228F+0338 NotSquareSubset,2290 sqsupset,\
     2290+0338 NotSquareSuperset,2291 SquareSubsetEqual,2292 SquareSupersetEqual,2293 sqcap,\
     2293+FE00 sqcaps,2294 sqcup,2294+FE00 sqcups,2295 CirclePlus,2296 ominus,2297 CircleTimes,\
     2298 osol,2299 CircleDot,229A ocir,229B oast,229D odash,229E boxplus,229F boxminus,\
     22A0 timesb,22A1 sdotb,22A2 vdash,22A3 dashv,22A4 DownTee,22A5 perp,22A7 models,\
     22A8 DoubleRightTee,22A9 Vdash,22AA Vvdash,22AB VDash,22AC nvdash,22AD nvDash,22AE nVdash,\
     22AF nVDash,22B0 prurel,22B2 vartriangleleft,22B3 vrtri,22B4 LeftTriangleEqual,\
     22B4+20D2 nvltrie,22B5 RightTriangleEqual,22B5+20D2 nvrtrie,22B6 origof,22B7 imof,22B8 mumap,\
     22B9 hercon,22BA intcal,22BB veebar,22BD barvee,22BE angrtvb,22BF lrtri,22C0 xwedge,\
     22C1 xvee,22C2 bigcap,22C3 bigcup,22C4 diamond,22C5 sdot,22C6 Star,22C7 divonx,22C8 bowtie,\
     22C9 ltimes,22CA rtimes,22CB lthree,22CC rthree,22CD backsimeq,22CE curlyvee,22CF curlywedge,\
     22D0 Sub,22D1 Supset,22D2 Cap,22D3 Cup,22D4 pitchfork,22D5 epar,22D6 lessdot,22D7 gtrdot,\
     22D8 Ll,22D8+0338 nLl,22D9 Gg,22D9+0338 nGg,22DA lesseqgtr,22DA+FE00 lesg,22DB gtreqless,\
     22DB+FE00 gesl,22DE curlyeqprec,22DF cuesc,22E0 NotPrecedesSlantEqual,\
     22E1 NotSucceedsSlantEqual,22E2 NotSquareSubsetEqual,22E3 NotSquareSupersetEqual,22E6 lnsim,\
     22E7 gnsim,22E8 precnsim,22E9 scnsim,22EA nltri,22EB ntriangleright,22EC nltrie,\
     22ED NotRightTriangleEqual,22EE vellip,22EF ctdot,22F0 utdot,22F1 dtdot,22F2 disin,\
     22F3 isinsv,22F4 isins,22F5 isindot,22F5+0338 notindot,22F6 notinvc,22F7 notinvb,22F9 isinE,\
     22F9+0338 notinE,22FA nisd,22FB xnis,22FC nis,22FD notnivc,22FE notnivb,2305 barwed,\
     2306 doublebarwedge,2308 lceil,2309 RightCeiling,230A LeftFloor,230B RightFloor,230C drcrop,\
     230D dlcrop,230E urcrop,230F ulcrop,2310 bnot,2312 profline,2313 profsurf,2315 telrec,\
     2316 target,231C ulcorner,231D urcorner,231E llcorner,231F drcorn,2322 frown,2323 smile,\
     232D cylcty,232E profalar,2336 topbot,233D ovbar,233F solbar,237C angzarr,23B0 lmoust,\
     23B1 rmoust,23B4 OverBracket,23B5 bbrk,23B6 bbrktbrk,23DC OverParenthesis,\
     23DD UnderParenthesis,23DE OverBrace,23DF UnderBrace,23E2 trpezium,23E7 elinters,2423 blank,\
     24C8 oS,2500 HorizontalLine,2502 boxv,250C boxdr,2510 boxdl,2514 boxur,2518 boxul,251C boxvr,\
     2524 boxvl,252C boxhd,2534 boxhu,253C boxvh,2550 boxH,2551 boxV,2552 boxdR,2553 boxDr,\
     2554 boxDR,2555 boxdL,2556 boxDl,2557 boxDL,2558 boxuR,2559 boxUr,255A boxUR,255B boxuL,\
     255C boxUl,255D boxUL,255E boxvR,255F boxVr,2560 boxVR,2561 boxvL,2562 boxVl,2563 boxVL,\
     2564 boxHd,2565 boxhD,2566 boxHD,2567 boxHu,2568 boxhU,2569 boxHU,256A boxvH,256B boxVh,\
     256C boxVH,2580 uhblk,2584 lhblk,2588 block,2591 blk14,2592 blk12,2593 blk34,25A1 Square,\
     25AA squarf,25AB EmptyVerySmallSquare,25AD rect,25AE marker,25B1 fltns,25B3 bigtriangleup,\
     25B4 blacktriangle,25B5 triangle,25B8 blacktriangleright,25B9 rtri,25BD bigtriangledown,\
     25BE blacktriangledown,25BF triangledown,25C2 blacktriangleleft,25C3 ltri,25CA lozenge,\
     25CB cir,25EC tridot,25EF bigcirc,25F8 ultri,25F9 urtri,25FA lltri,25FB EmptySmallSquare,\
     25FC FilledSmallSquare,2605 starf,2606 star,260E phone,2640 female,2642 male,2660 spadesuit,\
     2663 clubs,2665 hearts,2666 diamondsuit,266A sung,266D flat,266E natur,266F sharp,2713 check,\
     2717 cross,2720 maltese,2736 sext,2758 VerticalSeparator,2772 lbbrk,2773 rbbrk,27C8 bsolhsub,\
     27C9 suphsol,27E6 LeftDoubleBracket,27E7 RightDoubleBracket,27E8 langle,\
     27E9 RightAngleBracket,27EA Lang,27EB Rang,27EC loang,27ED roang,27F5 longleftarrow,\
     27F6 LongRightArrow,27F7 LongLeftRightArrow,27F8 xlArr,27F9 DoubleLongRightArrow,27FA xhArr,\
     27FC xmap,27FF dzigrarr,2902 nvlArr,2903 nvrArr,2904 nvHarr,2905 Map,290C lbarr,290D bkarow,\
     290E lBarr,290F dbkarow,2910 drbkarow,2911 DDotrahd,2912 UpArrowBar,2913 DownArrowBar,\
     2916 Rarrtl,2919 latail,291A ratail,291B lAtail,291C rAtail,291D larrfs,291E rarrfs,\
     291F larrbfs,2920 rarrbfs,2923 nwarhk,2924 nearhk,2925 searhk,2926 swarhk,2927 nwnear,\
     2928 toea,2929 seswar,292A swnwar,2933 rarrc,2933+0338 nrarrc,2935 cudarrr,2936 ldca,\
     2937 rdca,2938 cudarrl,2939 larrpl,293C curarrm,293D cularrp,2945 rarrpl,2948 harrcir,\
     2949 Uarrocir,294A lurdshar,294B ldrushar,294E LeftRightVector,294F RightUpDownVector,\
     2950 DownLeftRightVector,2951 LeftUpDownVector,2952 LeftVectorBar,2953 RightVectorBar,\
     2954 RightUpVectorBar,2955 RightDownVectorBar,2956 DownLeftVectorBar,2957 DownRightVectorBar,\
     2958 LeftUpVectorBar,2959 LeftDownVectorBar,295A LeftTeeVector,295B RightTeeVector,\
     295C RightUpTeeVector,295D RightDownTeeVector,295E DownLeftTeeVector,295F DownRightTeeVector,\
     2960 LeftUpTeeVector,2961 LeftDownTeeVector,2962 lHar,2963 uHar,2964 rHar,2965 dHar,\
     2966 luruhar,2967 ldrdhar,2968 ruluhar,2969 rdldhar,296A lharul,296B llhard,296C rharul,\
     296D lrhard,296E udhar,296F ReverseUpEquilibrium,2970 RoundImplies,2971 erarr,2972 simrarr,\
     2973 larrsim,2974 rarrsim,2975 rarrap,2976 ltlarr,2978 gtrarr,2979 subrarr,297B suplarr,\
     297C lfisht,297D rfisht,297E ufisht,297F dfisht,2985 lopar,2986 ropar,298B lbrke,298C rbrke,\
     298D lbrkslu,298E rbrksld,298F lbrksld,2990 rbrkslu,2991 langd,2992 rangd,2993 lparlt,\
     2994 rpargt,2995 gtlPar,2996 ltrPar,299A vzigzag,299C vangrt,299D angrtvbd,29A4 ange,\
     29A5 range,29A6 dwangle,29A7 uwangle,29A8 angmsdaa,29A9 angmsdab,29AA angmsdac,29AB angmsdad,\
     29AC angmsdae,29AD angmsdaf,29AE angmsdag,29AF angmsdah,29B0 bemptyv,29B1 demptyv,\
     29B2 cemptyv,29B3 raemptyv,29B4 laemptyv,29B5 ohbar,29B6 omid,29B7 opar,29B9 operp,\
     29BB olcross,29BC odsold,29BE olcir,29BF ofcir,29C0 olt,29C1 ogt,29C2 cirscir,29C3 cirE,\
     29C4 solb,29C5 bsolb,29C9 boxbox,29CD trisb,29CE rtriltri,29CF LeftTriangleBar,\
     29CF+0338 NotLeftTriangleBar,29D0 RightTriangleBar,29D0+0338 NotRightTriangleBar,29DC iinfin,\
     29DD infintie,29DE nvinfin,29E3 eparsl,29E4 smeparsl,29E5 eqvparsl,29EB lozf,\
     29F4 RuleDelayed,29F6 dsol,2A00 xodot,2A01 bigoplus,2A02 bigotimes,2A04 biguplus,\
     2A06 bigsqcup,2A0C iiiint,2A0D fpartint,2A10 cirfnint,2A11 awint,2A12 rppolint,2A13 scpolint,\
     2A14 npolint,2A15 pointint,2A16 quatint,2A17 intlarhk,2A22 pluscir,2A23 plusacir,\
     2A24 simplus,2A25 plusdu,2A26 plussim,2A27 plustwo,2A29 mcomma,2A2A minusdu,2A2D loplus,\
     2A2E roplus,2A2F Cross,2A30 timesd,2A31 timesbar,2A33 smashp,2A34 lotimes,2A35 rotimes,\
     2A36 otimesas,2A37 Otimes,2A38 odiv,2A39 triplus,2A3A triminus,2A3B tritime,2A3C iprod,\
     2A3F amalg,2A40 capdot,2A42 ncup,2A43 ncap,2A44 capand,2A45 cupor,2A46 cupcap,2A47 capcup,\
     2A48 cupbrcap,2A49 capbrcup,2A4A cupcup,2A4B capcap,2A4C ccups,2A4D ccaps,2A50 ccupssm,\
     2A53 And,2A54 Or,2A55 andand,2A56 oror,2A57 orslope,2A58 andslope,2A5A andv,2A5B orv,\
     2A5C andd,2A5D ord,2A5F wedbar,2A66 sdote,2A6A simdot,2A6D congdot,2A6D+0338 ncongdot,\
     2A6E easter,2A6F apacir,2A70 apE,2A70+0338 napE,2A71 eplus,2A72 pluse,2A73 Esim,2A74 Colone,\
     2A75 Equal,2A77 ddotseq,2A78 equivDD,2A79 ltcir,2A7A gtcir,2A7B ltquest,2A7C gtquest,\
     2A7D les,2A7D+0338 nles,2A7E ges,2A7E+0338 nges,2A7F lesdot,2A80 gesdot,2A81 lesdoto,\
     2A82 gesdoto,2A83 lesdotor,2A84 gesdotol,2A85 lap,2A86 gap,2A87 lne,2A88 gne,2A89 lnap,\
     2A8A gnap,2A8B lesseqqgtr,2A8C gEl,2A8D lsime,2A8E gsime,2A8F lsimg,2A90 gsiml,2A91 lgE,\
     2A92 glE,2A93 lesges,2A94 gesles,2A95 els,2A96 egs,2A97 elsdot,2A98 egsdot,2A99 el,2A9A eg,\
     2A9D siml,2A9E simg,2A9F simlE,2AA0 simgE,2AA1 LessLess,2AA1+0338 NotNestedLessLess,\
     2AA2 GreaterGreater,2AA2+0338 NotNestedGreaterGreater,2AA4 glj,2AA5 gla,2AA6 ltcc,2AA7 gtcc,\
     2AA8 lescc,2AA9 gescc,2AAA smt,2AAB lat,2AAC smte,2AAC+FE00 smtes,2AAD late,2AAD+FE00 lates,\
     2AAE bumpE,2AAF preceq,2AAF+0338 NotPrecedesEqual,2AB0 SucceedsEqual,\
     2AB0+0338 NotSucceedsEqual,2AB3 prE,2AB4 scE,2AB5 precneqq,2AB6 scnE,2AB7 precapprox,\
     2AB8 succapprox,2AB9 precnapprox,2ABA succnapprox,2ABB Pr,2ABC Sc,2ABD subdot,2ABE supdot,\
     2ABF subplus,2AC0 supplus,2AC1 submult,2AC2 supmult,2AC3 subedot,2AC4 supedot,2AC5 subE,\
     2AC5+0338 nsubE,2AC6 supseteqq,2AC6+0338 nsupseteqq,2AC7 subsim,2AC8 supsim,2ACB subsetneqq,\
     2ACB+FE00 vsubnE,2ACC supnE,2ACC+FE00 varsupsetneqq,2ACF csub,2AD0 csup,2AD1 csube,\
     2AD2 csupe,2AD3 subsup,2AD4 supsub,2AD5 subsub,2AD6 supsup,2AD7 suphsub,2AD8 supdsub,\
     2AD9 forkv,2ADA topfork,2ADB mlcp,2AE4 Dashv,2AE6 Vdashl,2AE7 Barv,2AE8 vBar,2AE9 vBarv,\
     2AEB Vbar,2AEC Not,2AED bNot,2AEE rnmid,2AEF cirmid,2AF0 midcir,2AF1 topcir,2AF2 nhpar,\
     2AF3 parsim,2AFD parsl,2AFD+20E5 nparsl,FB00 fflig,FB01 filig,FB02 fllig,FB03 ffilig,\
     FB04 ffllig,1D49C Ascr,1D49E Cscr,1D49F Dscr,1D4A2 Gscr,1D4A5 Jscr,1D4A6 Kscr,1D4A9 Nscr,\
     1D4AA Oscr,1D4AB Pscr,1D4AC Qscr,1D4AE Sscr,1D4AF Tscr,1D4B0 Uscr,1D4B1 Vscr,1D4B2 Wscr,\
     1D4B3 Xscr,1D4B4 Yscr,1D4B5 Zscr,1D4B6 ascr,1D4B7 bscr,1D4B8 cscr,1D4B9 dscr,1D4BB fscr,\
     1D4BD hscr,1D4BE iscr,1D4BF jscr,1D4C0 kscr,1D4C1 lscr,1D4C2 mscr,1D4C3 nscr,1D4C5 pscr,\
     1D4C6 qscr,1D4C7 rscr,1D4C8 sscr,1D4C9 tscr,1D4CA uscr,1D4CB vscr,1D4CC wscr,1D4CD xscr,\
     1D4CE yscr,1D4CF zscr,1D504 Afr,1D505 Bfr,1D507 Dfr,1D508 Efr,1D509 Ffr,1D50A Gfr,1D50D Jfr,\
     1D50E Kfr,1D50F Lfr,1D510 Mfr,1D511 Nfr,1D512 Ofr,1D513 Pfr,1D514 Qfr,1D516 Sfr,1D517 Tfr,\
     1D518 Ufr,1D519 Vfr,1D51A Wfr,1D51B Xfr,1D51C Yfr,1D51E afr,1D51F bfr,1D520 cfr,1D521 dfr,\
     1D522 efr,1D523 ffr,1D524 gfr,1D525 hfr,1D526 ifr,1D527 jfr,1D528 kfr,1D529 lfr,1D52A mfr,\
     1D52B nfr,1D52C ofr,1D52D pfr,1D52E qfr,1D52F rfr,1D530 sfr,1D531 tfr,1D532 ufr,1D533 vfr,\
     1D534 wfr,1D535 xfr,1D536 yfr,1D537 zfr,1D538 Aopf,1D539 Bopf,1D53B Dopf,1D53C Eopf,\
     1D53D Fopf,1D53E Gopf,1D540 Iopf,1D541 Jopf,1D542 Kopf,1D543 Lopf,1D544 Mopf,1D546 Oopf,\
     1D54A Sopf,1D54B Topf,1D54C Uopf,1D54D Vopf,1D54E Wopf,1D54F Xopf,1D550 Yopf,1D552 aopf,\
     1D553 bopf,1D554 copf,1D555 dopf,1D556 eopf,1D557 fopf,1D558 gopf,1D559 hopf,1D55A iopf,\
     1D55B jopf,1D55C kopf,1D55D lopf,1D55E mopf,1D55F nopf,1D560 oopf,1D561 popf,1D562 qopf,\
     1D563 ropf,1D564 sopf,1D565 topf,1D566 uopf,1D567 vopf,1D568 wopf,1D569 xopf,1D56A yopf,\
     1D56B zopf";
